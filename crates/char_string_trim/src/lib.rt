// Trimming: a word without the white space at its edges.
#![tactic(auto)]

ghost use Rattle.std.specs.Prelude.{◌≡◌};
ghost use Rattle.lists.specs.Scans.{behind_last};
ghost use Rattle.char_string.specs.Parts.{cell_at};
ghost use Rattle.char_string_trim.specs.Trimming.{stays, trim_start, trim_of, trimmed_of};

use char_string::{Span, substring};
use char_string_white_space::is_trimmed;

fn trim_start(word: &[u32]) -> usize
    ensures { result ≡ trim_start word.now }
{
    word.iter().take_while(|x| is_trimmed(**x)).count()
}

// How many characters are left once those at the back are stripped.
fn kept(word: &[u32]) -> usize
    ensures { result ≡ behind_last stays word.now }
{
    match word.iter().rposition(|x| !is_trimmed(*x)) {
        Some(last) => last + 1,
        None => 0,
    }
}

// The positions between which the trimmed word stands.
pub fn trim(word: &[u32]) -> Span
    ensures { result ≡ trim_of word.now }
{
    let start = trim_start(word);
    let left = kept(&word[start..]);
    Span {
        start,
        end: start + left,
    }
}

// The trimmed word: that part of what was given itself, no copy.
pub fn trimmed(word: &[u32]) -> &[u32]
    ensures result_value { result.now ≡ trimmed_of word.now }
    ensures ref_ptr_value { result.ref_ptr ≡ cell_at word.entry.ref_ptr (trim_start word.now) }
{
    let s = trim(word);
    substring(word, s.start, s.end)
}
