// Checking a claim: ends that someone else gives for the plain cut of a text.
#![tactic(auto)]

ghost use Rattle.std.specs.Prelude.{◌≡◌, length, Ok};
ghost use Rattle.trie_pool.specs.Meaning.{meaning};
ghost use Rattle.newmm_answers.specs.inner.Passing.{Passes};
ghost use Rattle.newmm_rules.specs.Claims.{token_right, verdict};
ghost use Rattle.newmm_word_step.specs.inner.Places.{Place};
ghost use Rattle.newmm_word_step.specs.inner.Walks.{given_by};
ghost use Rattle.newmm_claim.specs.Answers.{verdict_told, claim, Claims};
ghost use Rattle.newmm_claim.specs.inner.Judging.{Judges};

use newmm_answers::check_cut;
use newmm_skip::token_end;
use newmm_words_at::{Found, words_at};
use refusal::Refusal;
use tcc::tcc_flags;
use trie_check::capacity;
use trie_pool::NODE;

// What the check of a claim finds: it is right, or the first token that is not, counted from 0.
#[derive(Clone, Copy, Debug, PartialEq, Eq)]
pub enum Verdict {
    Right,
    Wrong(usize),
}

// Whether the token from b to e is right. No word and no span ends at b or before, or behind the
// text, so e may be any number.
fn token_right(text: &[u32], pool: &[u32], flags: &[u32], b: usize, e: usize) -> bool
    requires { Place text.now pool.now flags.now b }
    ensures { result ≡ token_right (given_by text.now pool.now) b e }
{
    match words_at(text, pool, flags, b, e) {
        Found::Here => true,
        Found::Elsewhere => false,
        Found::Nowhere => e == token_end(text, pool, flags, b),
    }
}

// Goes over the tokens up to the first that is wrong, or to the text's end.
fn judge(text: &[u32], pool: &[u32], flags: &[u32], claimed: &[u32]) -> Verdict
    requires { Judges text.now pool.now flags.now }
    ensures { result ≡
        verdict_told (verdict (given_by text.now pool.now) claimed.now) }
{
    let mut b = 0;
    for (k, end) in claimed.iter().enumerate() {
        let e = *end as usize;
        if text.len() <= b || !token_right(text, pool, flags, b, e) {
            return Verdict::Wrong(k);
        }
        b = e;
    }
    if b < text.len() {
        return Verdict::Wrong(claimed.len());
    }
    Verdict::Right
}

// Checks a claim that none of the refusals 2 to 5 is due to.
fn claim_checked(text: &[u32], pool: &[u32], claimed: &[u32], scratch: &mut [u32]) -> Verdict
    requires { Passes text.now (meaning pool.now) (length scratch.old) }
    ensures { Claims
        (claim text.now pool.now claimed.now scratch.old)
        (Ok result) scratch.new }
{
    let cells = NODE * capacity(pool.len());
    let m = text.len() + 1;
    tcc_flags(text, scratch);
    let r = judge(text, &pool[..cells], &scratch[..m], claimed);
    scratch.fill(0);
    r
}

// Checks ends that are claimed for the plain cut of a text by the words of a pool: right, or the
// first token that is not. Each token is walked once. Refusals 2 to 5.
pub fn check_claim(
    text: &[u32],
    pool: &[u32],
    claimed: &[u32],
    scratch: &mut [u32],
) -> Result<Verdict, Refusal>
    ensures { Claims
        (claim text.now pool.now claimed.now scratch.old)
        result scratch.new }
{
    check_cut(text, pool, scratch.len())?;
    Ok(claim_checked(text, pool, claimed, scratch))
}
