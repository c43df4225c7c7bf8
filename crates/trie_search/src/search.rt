// The search for words.
ghost use Rattle.std.specs.Prelude.{◌≡◌, ◌<◌, length};
ghost use Rattle.trie_pool.specs.Cells.{mark_at, used};
ghost use Rattle.trie_pool.specs.Words.{marked, holds, term, term_at, lacking};
ghost use Rattle.trie_pool.specs.Meaning.{prefix_lengths, amount};
ghost use Rattle.trie_pool.specs.inner.Sound.{Readable};
ghost use Rattle.trie_search.specs.inner.Search.{Asks, Wrote, Counts};

use trie_child::find_child;
use trie_pool::{IN_USE, MARK, NODE};

// Whether a word ends at node i, which is not the root.
pub fn ends_word(p: &[u32], i: usize) -> bool
    requires { (0 < i) × Readable p.now i }
    ensures { result ≡ marked (mark_at p.now i) }
{
    p[NODE * i + MARK] != 0
}

// The word's mark: its class and one if it is held, else 0.
// Kept: (1) the cell as it stands, which an addition compares with the one that it would store.
// Kept: (5) `Readable` names a number of nodes, which a ghost field would have to hide.
pub fn mark_of(p: &[u32], w: &[u32]) -> u32
    requires { Readable p.now 0 }
    ensures { term result ≡ term_at p.now w.now }
{
    if w.is_empty() {
        return 0;
    }
    let mut i: usize = 0;
    for x in w {
        let Some(r) = find_child(p, i, *x) else {
            return 0;
        };
        i = r;
    }
    p[NODE * i + MARK]
}

// How many nodes the word needs that the pool lacks.
pub fn missing(p: &[u32], w: &[u32]) -> usize
    requires { Readable p.now 0 }
    ensures { result ≡ lacking p.now w.now 0 }
{
    let mut i: usize = 0;
    for (t, x) in w.iter().enumerate() {
        let Some(r) = find_child(p, i, *x) else {
            return w.len() - t;
        };
        i = r;
    }
    0
}

// How many words the text starts with.
pub fn prefix_count(p: &[u32], text: &[u32]) -> usize
    requires { Readable p.now 0 }
    ensures { result ≡ length (prefix_lengths (holds p.now) text.now) }
{
    let mut b: usize = 0;
    let mut n: usize = 0;
    for x in text {
        let Some(r) = find_child(p, b, *x) else {
            return n;
        };
        b = r;
        if !ends_word(p, r) {
            continue;
        }
        n += 1;
    }
    n
}

// Writes the lengths of the words that the text starts with to the front of out, rising, and
// returns their number.
pub fn prefix_lengths(p: &[u32], text: &[u32], out: &mut [u32]) -> usize
    requires { Asks p.now text.now out.old }
    ensures { Wrote out.old
        (prefix_lengths (holds p.now) text.now) out.new result }
{
    let mut b: usize = 0;
    let mut n: usize = 0;
    for (i, x) in text.iter().enumerate() {
        let Some(r) = find_child(p, b, *x) else {
            return n;
        };
        b = r;
        if !ends_word(p, r) {
            continue;
        }
        out[n] = (i + 1) as u32;
        n += 1;
    }
    n
}

// The nodes in use.
pub fn nodes_in_use(p: &[u32]) -> usize
    requires { 0 < length p.now }
    ensures { result ≡ used p.now }
{
    p[IN_USE] as usize
}

// How many words are held. None ends at the root.
pub fn count_words(p: &[u32]) -> usize
    requires { Counts p.now }
    ensures { result ≡ amount p.now }
{
    let n = p[IN_USE] as usize;
    let mut words: usize = 0;
    for i in 1..n {
        let mark = p[NODE * i + MARK];
        if mark == 0 {
            continue;
        }
        words += 1;
    }
    words
}
