// The lines of a word list: a word, and a tab and its class in decimal behind a word that has one.
//   take_line   adds the word of a line
//   write_line  the line of a word
#![tactic(auto)]

ghost use Rattle.std.specs.Prelude.{◌≡◌};
ghost use Rattle.refusal.specs.Answers.{output};
ghost use Rattle.utf8.specs.Decoding.{scalars_of, room_in, decoded};
ghost use Rattle.utf8.specs.Positions.{positions_of};
ghost use Rattle.trie_char_answers.specs.Answers.{added};
ghost use Rattle.trie_char_answers.specs.Changes.{After};
ghost use Rattle.sheet_texts.specs.Texts.{written, amount};
ghost use Rattle.word_lines.specs.Lines.{tab_in, with_digit, number_in, class_behind, class_of, word_of, is_term};
ghost use Rattle.word_lines.specs.Lines.{add_term, taken, PoolBy, row_by, term_line};

use refusal::Refusal;
use sheet_bytes::{count_before, front, keep};
use sheet_texts::keep_number;
use std::fmt;
use trie_char::add_class;

// Why a line's word is not added.
#[derive(Clone, Copy, Debug, PartialEq, Eq)]
pub enum LineError {
    // Something else than a class stands behind the tab.
    NoClass,
    // The dictionary refuses the word.
    Refused(Refusal),
}

impl fmt::Display for LineError {
    fn fmt<W: fmt::Write>(&self, f: &mut fmt::Formatter<W>) -> fmt::Result {
        match self {
            LineError::NoClass => f.write_str("no class behind the tab"),
            LineError::Refused(r) => {
                let number = r.number();
                let detail = r.detail();
                write!(f, "refusal {number}, detail {detail}")
            }
        }
    }
}

const MAX_CLASS: usize = 65535;

const NO_CLASS: usize = 65536;

// A class with one digit more; NO_CLASS where it is none.
fn with_digit(n: usize, b: u8) -> usize
    ensures { result ≡ with_digit n b }
{
    if b < b'0' {
        return NO_CLASS;
    }
    if b'9' < b {
        return NO_CLASS;
    }
    if MAX_CLASS < n {
        return NO_CLASS;
    }
    let more = 10 * n + (b - b'0') as usize;
    if MAX_CLASS < more {
        return NO_CLASS;
    }
    more
}

// The class that a text is in decimal; NO_CLASS where it is none.
fn number_in(text: &[u8]) -> usize
    ensures { result ≡ number_in text.now }
{
    if text.len() == 0 {
        return NO_CLASS;
    }
    let mut n = 0;
    for b in text {
        n = with_digit(n, *b);
    }
    n
}

// The class behind the tab at a place, 0 where there is no tab.
fn class_behind(line: &[u8], tab: usize) -> usize
    ensures { result ≡ class_behind line.now tab }
{
    if line.len() <= tab {
        return 0;
    }
    number_in(&line[tab + 1..])
}

fn add_term(
    word: &[u8],
    class: u16,
    pool: &mut [u32],
    scalars: &mut [u32],
    positions: &mut [u32],
) -> Result<usize, Refusal>
    ensures value { result ≡
        add_term word.now class pool.old (room_in scalars.old positions.old) }
    ensures after { After
        (add_term word.now class pool.old (room_in scalars.old positions.old))
        pool.old pool.new
        (added (scalars_of word.now) class pool.old) }
    ensures scalars_after { scalars.new ≡
        output (decoded word.now (room_in scalars.old positions.old))
        (scalars_of word.now) scalars.old }
    ensures positions_after { positions.new ≡
        output (decoded word.now (room_in scalars.old positions.old))
        (positions_of word.now) positions.old }
{
    let n = utf8::decode(word, scalars, positions)?;
    add_class(pool, &scalars[..n], class)
}

// Adds the word of a line with its class, 0 where there is no tab, and leaves the word's scalars
// and their positions at the front of their rows. A line without a class behind its tab changes
// nothing.
pub fn take_line(
    line: &[u8],
    pool: &mut [u32],
    scalars: &mut [u32],
    positions: &mut [u32],
) -> Result<usize, LineError>
    ensures value { result ≡ taken line.now pool.old
        (room_in scalars.old positions.old) }
    ensures pool_by { PoolBy (is_term line.now)
        (add_term (word_of line.now) (class_of line.now) pool.old
        (room_in scalars.old positions.old))
        pool.old pool.new
        (added (scalars_of (word_of line.now)) (class_of line.now) pool.old) }
    ensures scalars_after { scalars.new ≡ row_by (is_term line.now)
        (decoded (word_of line.now) (room_in scalars.old positions.old))
        (scalars_of (word_of line.now)) scalars.old }
    ensures positions_after { positions.new ≡ row_by (is_term line.now)
        (decoded (word_of line.now) (room_in scalars.old positions.old))
        (positions_of (word_of line.now)) positions.old }
{
    let tab = count_before(line, b'\t');
    let class = class_behind(line, tab);
    if MAX_CLASS < class {
        return Err(LineError::NoClass);
    }
    match add_term(front(line, tab), class as u16, pool, scalars, positions) {
        Ok(n) => Ok(n),
        Err(r) => Err(LineError::Refused(r)),
    }
}

// Writes the line of a word with its class to the front of `out`, as far as there is room. Answers
// how many bytes that is.
pub fn write_line(word: &[u8], class: usize, out: &mut [u8]) -> usize
    ensures value { result ≡ amount (term_line word.now class) out.old }
    ensures out_after { out.new ≡ written (term_line word.now class) out.old }
{
    let a = keep(out, 0, word);
    if class == 0 {
        return keep(out, a, b"\n");
    }
    let b = keep(out, a, b"\t");
    let c = keep_number(out, b, class);
    keep(out, c, b"\n")
}
