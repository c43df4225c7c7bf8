// Puts rising words into a pool: each node is written once, at its final number.
#![tactic(auto)]

ghost use Rattle.std.specs.Prelude.{◌≡◌, ◌+◌, ◌-◌, set};
ghost use Rattle.trie_build.specs.inner.Appending.{row, Spot, leaf_cells, one_more, Puts, Put};

use trie_pool::{COUNT, FIRST, MARK, NODE};

// One character more: a leaf at the first free node of level d + 1, under the last node of level d.
fn put_leaf(p: &mut [u32], next: &mut [usize; 257], x: u32, d: usize)
    requires { Spot p.old next.old d }
    ensures p_after { p.new ≡
        one_more (leaf_cells p.old (row next.old (d + 1)) x (row next.old (d + 2)))
        (row next.old d - 1) }
    ensures next_after { next.new ≡
        set next.old (d + 1) (row next.old (d + 1) + 1) }
{
    let b = next[d] - 1;
    let r = next[d + 1];
    p[NODE * r] = x;
    p[NODE * r + FIRST] = next[d + 2] as u32;
    p[NODE * b + COUNT] += 1;
    next[d + 1] = r + 1;
}

// Puts in a word that shares its first l characters with the word before it and is above it. The
// next free node of level d is next[d]; the last nodes of the levels are the path of the word
// before.
pub fn append(p: &mut [u32], next: &mut [usize; 257], word: &[u32], l: usize, mark: u32)
    requires { Puts p.old next.old word.now l mark }
    ensures { Put p.old next.old word.now l mark
        p.new next.new }
{
    for d in l..word.len() {
        put_leaf(p, next, word[d], d);
    }
    let end = next[word.len()] - 1;
    p[NODE * end + MARK] = mark;
}
