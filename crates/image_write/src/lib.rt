// Writes the image of a dictionary.
#![tactic(auto)]

ghost use Rattle.std.specs.Prelude.{◌≡◌, List, [], ◌∷◌, ℕ, ◌+◌, ◌≤◌, length, take};
ghost use Rattle.refusal.specs.Answers.{answer, out_cause, output};
ghost use Rattle.utf8_sequences.specs.Utf8.{encode};
ghost use Rattle.trie_pool.specs.Cells.{used};
ghost use Rattle.trie_pool.specs.Words.{at, rev};
ghost use Rattle.trie_pool.specs.inner.Paths.{reach};
ghost use Rattle.trie_pool.specs.inner.Sound.{Sound};
ghost use Rattle.image_rules.specs.Records.{image_of};
ghost use Rattle.image_list.specs.Listed.{list_of};
ghost use Rattle.image_bytes.specs.inner.Laying.{laid_at};
ghost use Rattle.image_write.specs.inner.Writing.{OwnAsks, OwnWrote, Writes, Wrote};

use image_bytes::put_scalar;
use image_put::{put_last, put_word};
use image_size::image_size;
use refusal::Refusal;
use trie_pool::{COUNT, FIRST, MARK, NODE};
use trie_search::count_words;

// The bytes of the longest word: 255 scalars of four.
const PATH: usize = 1020;

// Writes the record of the word that ends at a node, if one does, by its mark and the first n bytes
// of the row of its path. Answers the place behind it.
fn put_own(mark: usize, path: &[u8], n: usize, out: &mut [u8], from: usize) -> usize
    requires { OwnAsks mark path.now n out.old from }
    ensures { (u : List ℕ) → take n path.now ≡ encode (rev u []) →
        OwnWrote mark u out.old out.new from result }
{
    if mark == 0 {
        return from;
    }
    put_word(out, from, mark - 1, &path[..n])
}

// Writes the records of the words below a node. The first n bytes of `path` are those of the node's
// path, and stay. Answers the place behind the records.
fn write_below(p: &[u32], i: usize, path: &mut [u8], n: usize, out: &mut [u8], from: usize) -> usize
    requires { Writes p.now i path.old n out.old from }
    ensures { (u : List ℕ) → reach p.now u ≡ at i → take n path.old ≡ encode (rev u []) →
        Wrote p.now i u path.old path.new n
        out.old out.new from result }
{
    let mut end = from;
    let first = p[NODE * i + FIRST] as usize;
    let count = p[NODE * i + COUNT] as usize;
    for k in first..first + count {
        let m = put_scalar(path, n, p[NODE * k]);
        let next = put_own(p[NODE * k + MARK] as usize, path, m, out, end);
        end = write_below(p, k, path, m, out, next);
    }
    end
}

// Writes the image of a dictionary to the front of a row that has room for it.
pub fn fill_image(p: &[u32], out: &mut [u8])
    requires sound { Sound p.now (used p.now) 0 }
    requires p_in_bounds { length (image_of (list_of p.now)) ≤ length out.old }
    ensures { out.new ≡ laid_at 0 (image_of (list_of p.now)) out.old }
{
    let mut path = [0u8; PATH];
    let end = write_below(p, 0, &mut path, 0, out, 0);
    let n = count_words(p);
    put_last(out, end, n);
}

// Writes the image of a dictionary to the front of a row; accepted with its bytes. Refusal 6.
pub fn write_dictionary(p: &[u32], out: &mut [u8]) -> Result<usize, Refusal>
    requires { Sound p.now (used p.now) 0 }
    ensures value { result ≡
        answer (out_cause (length (image_of (list_of p.now))) (length out.old) ∷ [])
        (length (image_of (list_of p.now))) }
    ensures out_after { out.new ≡ output result (image_of (list_of p.now)) out.old }
{
    let needed = image_size(p);
    if out.len() < needed {
        return Err(Refusal::OutputTooShort(needed));
    }
    fill_image(p, out);
    Ok(needed)
}
