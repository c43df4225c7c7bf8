// The word of a record, held against the word before it.
#![tactic(auto)]

ghost use Rattle.std.specs.Prelude.{◌≡◌, ◌≤◌, length, take};
ghost use Rattle.image_rules.specs.Order.{below, common};
ghost use Rattle.image_word.specs.inner.Words.{Decodes, Rises, Takes};

use cells::copy;
use char_string_white_space::is_trimmed;
use utf8::decode;

// A word that may stand where it does: how many characters it has, and how many of them it shares
// with the word before it.
#[derive(Clone, Copy)]
pub struct Taken {
    pub size: usize,
    pub shared: usize,
}

// The last word that was taken, at the front of `last`, and rows for the next one.
#[derive(Drop)]
pub struct WordReader {
    pub last: [u32; 255],
    pub size: u8,
    row: [u32; 255],
    positions: [u32; 256],
}

// How many characters two words share from their start.
fn shared(v: &[u32], w: &[u32]) -> usize
    ensures { result ≡ common v.now w.now }
{
    v.iter().zip(w.iter()).take_while(|(x, y)| x == y).count()
}

// Whether v stands before w; they share l characters.
fn rises(v: &[u32], w: &[u32], l: usize) -> bool
    requires { l ≡ common v.now w.now }
    ensures { result ≡ below v.now w.now }
{
    if w.len() <= l {
        return false;
    }
    v.len() <= l || v[l] < w[l]
}

// Writes the characters of a trimmed word of 1 to 255 to the front of `row`, and answers how many
// there are; nothing where the bytes are no such word.
fn word_in(bytes: &[u8], row: &mut [u32; 255], positions: &mut [u32; 256]) -> Option<usize>
    ensures { Decodes bytes.now row.new result }
{
    let n = decode(bytes, row, positions).ok()?;
    if n == 0 || is_trimmed(row[0]) || is_trimmed(row[n - 1]) {
        return None;
    }
    Some(n)
}

// Puts the first n cells of `row` to the front of `last`, if that word stands behind the one of
// `size` characters there. Answers how many characters the two share. As a part of its caller it
// would copy within one struct, by a memmove that a host for C may lack.
#[inline(never)]
fn put_behind(last: &mut [u32; 255], size: usize, row: &[u32; 255], n: usize) -> Option<usize>
    requires { (size ≤ 255) × (n ≤ 255) }
    ensures { Rises (take size last.old) (take n row.now) last.old last.new result }
{
    let word = &row[..n];
    let l = shared(&last[..size], word);
    if !rises(&last[..size], word, l) {
        return None;
    }
    copy(row, last, n);
    Some(l)
}

impl WordReader {
    // No word was taken yet.
    pub fn new() -> WordReader
        ensures { result.size ≡ 0 }
    {
        WordReader {
            last: [0; 255],
            size: 0,
            row: [0; 255],
            positions: [0; 256],
        }
    }

    // Takes the word of these bytes, if it may stand behind the last one.
    pub fn take_next(&mut self, bytes: &[u8]) -> Option<Taken>
        ensures { Takes bytes.now (take self.old.size self.old.last) self.new result }
    {
        let n = word_in(bytes, &mut self.row, &mut self.positions)?;
        let size = usize::from(self.size);
        let shared = put_behind(&mut self.last, size, &self.row, n)?;
        self.size = n as u8;
        Some(Taken { size: n, shared })
    }
}
