// The reason of a token, from what stands at its start and at its end.
#![tactic(auto)]

ghost use Rattle.std.specs.Prelude.{◌≡◌, []};
ghost use Rattle.newmm_rules.specs.Words.{word_ends};
ghost use Rattle.newmm_rules.specs.Tokens.{Token};
ghost use Rattle.newmm_reason_rules.specs.Numbers.{number_of};
ghost use Rattle.newmm_reason_rules.specs.Reasons.{reason_at};
ghost use Rattle.newmm_word_step.specs.inner.Walks.{given_by};
ghost use Rattle.newmm_word_step.specs.inner.Places.{Place};

use newmm_non_thai::starts_non_thai;
use newmm_reason_rules::Reason;
use newmm_skip::starts_word;
use newmm_words_at::{Found, words_at};

// The reason of the token from b to e, where no word starts at b.
fn other_reason(text: &[u32], pool: &[u32], flags: &[u32], b: usize, e: usize) -> Reason
    requires place { Place text.now pool.now flags.now b }
    requires token { Token (given_by text.now pool.now) b e }
    requires b_value { word_ends (given_by text.now pool.now) b ≡ [] }
    ensures { number_of result ≡ reason_at (given_by text.now pool.now) b }
{
    if starts_non_thai(&text[b..]) {
        return Reason::NonThaiRun;
    }
    if e == text.len() {
        return Reason::ToEnd;
    }
    if starts_word(text, pool, flags, e) {
        return Reason::ToWord;
    }
    Reason::ToNonThai
}

// The reason of the token from b to e.
pub fn reason_at(text: &[u32], pool: &[u32], flags: &[u32], b: usize, e: usize) -> Reason
    requires place { Place text.now pool.now flags.now b }
    requires token { Token (given_by text.now pool.now) b e }
    ensures { number_of result ≡ reason_at (given_by text.now pool.now) b }
{
    match words_at(text, pool, flags, b, e) {
        Found::Here => Reason::DictionaryWord,
        Found::Elsewhere => Reason::DictionaryWord,
        Found::Nowhere => other_reason(text, pool, flags, b, e),
    }
}
