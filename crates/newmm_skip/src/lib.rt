// The non-dictionary rule of plain cutting.
#![tactic(auto)]

ghost use Rattle.std.specs.Prelude.{◌≡◌};
ghost use Rattle.newmm_rules.specs.NonDictionary.{is_short, starts_word, skip_end, token_end};
ghost use Rattle.newmm_word_step.specs.inner.Walks.{given_by};
ghost use Rattle.newmm_word_step.specs.inner.Places.{Place};

use newmm_non_thai::{non_thai_length, starts_non_thai};
use newmm_word_step::{Step, word_limit, word_step};
use tcc_match::is_consonant;

// Whether the word is one or two consonants.
pub fn is_short(word: &[u32]) -> bool
    ensures { result ≡ is_short word.now }
{
    word.len() <= 2 && word.iter().all(|x| is_consonant(*x))
}

// Whether a word starts at p at which the search for a token's end stops.
// Kept: (5) text, pool and flags go together, but `token_end`, which docs/TRACE.md names, takes them
// as rows and may ask no more: a struct of them would be made anew at each call.
pub fn starts_word(text: &[u32], pool: &[u32], flags: &[u32], p: usize) -> bool
    requires { Place text.now pool.now flags.now p }
    ensures { result ≡ starts_word (given_by text.now pool.now) p }
{
    let limit = word_limit(text.len(), p);
    let mut node = 0;
    for e in p..limit {
        match word_step(text, pool, flags, e, node) {
            Step::Nothing => return false,
            Step::Part(r) => node = r,
            Step::Word(r) => {
                node = r;
                if !is_short(&text[p..e + 1]) {
                    return true;
                }
            }
        }
    }
    false
}

// The first cluster end behind b at which the search for a token's end stops, or the text's end.
// It is left at once, out of both walks: over places, and over word lengths.
fn skip_end(text: &[u32], pool: &[u32], flags: &[u32], b: usize) -> usize
    requires { Place text.now pool.now flags.now b }
    ensures { result ≡ skip_end (given_by text.now pool.now) b }
{
    let mut p = b + 1;
    // Kept: (2), (3) docs/RULES.md asks here for two labelled loops, left by a break with the end.
    // So the inner one is no call of `starts_word`, and neither is a `for`, which yields no value.
    'places: loop {
        if text.len() <= p {
            break 'places text.len();
        }
        if flags[p] == 0 {
            p += 1;
            continue 'places;
        }
        if starts_non_thai(&text[p..]) {
            break 'places p;
        }
        let limit = word_limit(text.len(), p);
        let mut e = p;
        let mut node = 0;
        'lengths: loop {
            if limit <= e {
                p += 1;
                continue 'places;
            }
            match word_step(text, pool, flags, e, node) {
                Step::Nothing => {
                    p += 1;
                    continue 'places;
                }
                Step::Part(r) => {
                    node = r;
                    e += 1;
                }
                Step::Word(r) => {
                    node = r;
                    e += 1;
                    if !is_short(&text[p..e]) {
                        break 'places p;
                    }
                }
            }
        }
    }
}

// The end of the token at b, where no word starts.
pub fn token_end(text: &[u32], pool: &[u32], flags: &[u32], b: usize) -> usize
    requires { Place text.now pool.now flags.now b }
    ensures { result ≡ token_end (given_by text.now pool.now) b }
{
    let k = non_thai_length(&text[b..]);
    if k == 0 {
        return skip_end(text, pool, flags, b);
    }
    b + k
}
