// What the words at a place of a text say of a token that starts there, in one walk.
#![tactic(auto)]

ghost use Rattle.newmm_word_step.specs.inner.Places.{Place};
ghost use Rattle.newmm_word_step.specs.inner.Walks.{given_by};
ghost use Rattle.newmm_words_at.specs.inner.Finding.{FoundIs};

use newmm_word_step::{Step, word_limit, word_step};

// Of the words that start at a place and end at a cluster end: one ends where the token does; they
// end elsewhere; there is none.
// Kept: (1) three outcomes, so an Option of an enum of two is no plainer.
#[derive(Clone, Copy, Debug, PartialEq, Eq)]
pub enum Found {
    Here,
    Elsewhere,
    Nowhere,
}

// Whether a word goes from b to e, and if not, whether any starts at b.
pub fn words_at(text: &[u32], pool: &[u32], flags: &[u32], b: usize, e: usize) -> Found
    requires { Place text.now pool.now flags.now b }
    ensures { FoundIs result (given_by text.now pool.now) b e }
{
    let limit = word_limit(text.len(), b);
    let mut node = 0;
    let mut found = Found::Nowhere;
    for p in b..limit {
        match word_step(text, pool, flags, p, node) {
            Step::Nothing => return found,
            Step::Part(r) => node = r,
            Step::Word(r) => {
                node = r;
                if p + 1 == e {
                    return Found::Here;
                }
                found = Found::Elsewhere;
            }
        }
    }
    found
}
