// The bytes that the image of a dictionary takes.
#![tactic(auto)]

ghost use Rattle.std.specs.Prelude.{◌≡◌, List, [], ℕ, ◌+◌, ◌*◌, ◌≤◌, length};
ghost use Rattle.utf8_sequences.specs.Utf8.{encode};
ghost use Rattle.trie_pool.specs.Cells.{mark_at, used};
ghost use Rattle.trie_pool.specs.Words.{at, rev};
ghost use Rattle.trie_pool.specs.inner.Paths.{reach};
ghost use Rattle.trie_pool.specs.inner.Sound.{Sound};
ghost use Rattle.image_rules.specs.Records.{word_records, image_of};
ghost use Rattle.image_list.specs.Listed.{own, list_of};
ghost use Rattle.image_list.specs.inner.Under.{under};
ghost use Rattle.image_size.specs.inner.Sizing.{Stands};

use image_bytes::scalar_size;
use trie_pool::{COUNT, FIRST, MARK, NODE};

// The mark of a node. The root has none.
pub fn mark_at(p: &[u32], i: usize) -> usize
    requires { 8 * i + 4 ≤ length p.now }
    ensures { result ≡ mark_at p.now i }
{
    if i == 0 {
        return 0;
    }
    p[NODE * i + MARK] as usize
}

// The bytes of the record of a node's own word, whose path takes so many bytes.
fn own_size(mark: usize, bytes: usize) -> usize
    requires { bytes ≤ 1020 }
    ensures { (path : List ℕ) → bytes ≡ length (encode (rev path [])) →
        result ≡ length (word_records (own path mark)) }
{
    if mark == 0 {
        return 0;
    }
    8 + bytes
}

// The bytes of the records of the words at a node and below it, where its path takes so many bytes.
fn size_from(p: &[u32], i: usize, bytes: usize) -> usize
    requires { Stands p.now i bytes }
    ensures { (path : List ℕ) → reach p.now path ≡ at i → bytes ≡ length (encode (rev path [])) →
        result ≡ length (word_records (under p.now path i)) }
{
    let mut size = own_size(mark_at(p, i), bytes);
    let first = p[NODE * i + FIRST] as usize;
    let count = p[NODE * i + COUNT] as usize;
    for k in first..first + count {
        size += size_from(p, k, bytes + scalar_size(p[NODE * k]));
    }
    size
}

// The bytes of the image of a dictionary.
pub fn image_size(p: &[u32]) -> usize
    requires { Sound p.now (used p.now) 0 }
    ensures { result ≡ length (image_of (list_of p.now)) }
{
    size_from(p, 0, 0) + 10
}
