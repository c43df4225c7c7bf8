// One leaf less.
ghost use Rattle.trie_leaf.specs.inner.Moving.{Lowers, Lowered};
ghost use Rattle.trie_leaf.specs.inner.Plucking.{Plucks, Plucked};

use crate::moves::{put_half, unshift};
use trie_pool::{COUNT, FIRST, IN_USE, NODE};

// Takes one from the first child of each node from `low` to `high`.
fn lower(p: &mut [u32], low: usize, high: usize)
    requires { Lowers p.old low high }
    ensures { Lowered p.old p.new low high }
{
    for i in low..high {
        p[NODE * i + FIRST] -= 1;
    }
}

// Takes the leaf j out, a child of b; m nodes are left.
pub fn pluck(p: &mut [u32], m: usize, b: usize, j: usize)
    requires { Plucks p.old m b j }
    ensures { Plucked p.old p.new m b j }
{
    unshift(p, j, m);
    put_half(p, NODE * m, 0, 0, 0, 0);
    lower(p, b + 1, m);
    p[NODE * b + COUNT] -= 1;
    p[IN_USE] = m as u32;
}
