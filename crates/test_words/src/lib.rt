// The words of a test vector: a field `scalars:class` joined by `,`, `-` for none, as a dictionary
// in a pool.
#![tactic(auto)]

ghost use Rattle.std.specs.Prelude.{◌≤◌, length};
ghost use Rattle.io.specs.Counts.{IsPrefixLen};

use refusal::Refusal;
use test_lines::{cut_at, number, parts_of, read_cells};

// Makes a dictionary of the words at the front of pool, with a node for each character of each, and
// answers how many cells it has. Where the words don't fit it writes a `?`. The cells of row are
// changed.
pub fn hold(rt: &impl Print, words: &[u8], row: &mut [u32], pool: &mut [u32]) -> usize
    ensures { result ≤ length pool.new }
{
    let cells = cells_for(rt, words, row, pool.len());
    let made = trie_char::fresh(&mut pool[..cells]);
    expect_done(rt, made);
    add_words(rt, words, row, &mut pool[..cells]);
    cells
}

// Eight cells for the root and eight for each character, `most` where that is less.
fn cells_for(rt: &impl Print, words: &[u8], row: &mut [u32], most: usize) -> usize
    ensures { result ≤ most }
{
    let room = most / 8;
    let mut nodes = 1usize;
    for word in parts_of(words, b',') {
        nodes = nodes.saturating_add(read_word(rt, word, row));
        if room < nodes {
            return most;
        }
    }
    if room < nodes {
        return most;
    }
    8 * nodes
}

fn add_words(rt: &impl Print, words: &[u8], row: &mut [u32], pool: &mut [u32]) {
    for word in parts_of(words, b',') {
        let n = read_word(rt, word, row);
        let class = read_class(rt, word).unwrap_or(0);
        let added = trie_char::add_class(pool, &row[..n], class);
        expect_done(rt, added);
    }
}

// Puts the scalars of a word to the front of row, and answers how many there are.
pub fn read_word(rt: &impl Print, word: &[u8], row: &mut [u32]) -> usize
    ensures { IsPrefixLen result row.new }
{
    read_cells(rt, cut_at(word, b':').0, row)
}

// The class behind a word. Where it is no number up to 65,535 a `?` is written, and it is 0.
pub fn read_class(rt: &impl Print, word: &[u8]) -> Option<u16> {
    let (_, behind) = cut_at(word, b':');
    if behind.is_empty() {
        return None;
    }
    match u16::try_from(number(rt, cut_at(behind, b':').0)) {
        Ok(class) => Some(class),
        Err(_) => {
            let _ = print!(rt; "?");
            Some(0)
        }
    }
}

fn expect_done(rt: &impl Print, done: Result<usize, Refusal>) {
    if done.is_err() {
        let _ = print!(rt; "?");
    }
}
