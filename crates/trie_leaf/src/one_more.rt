// One leaf more.
ghost use Rattle.trie_leaf.specs.inner.Moving.{Bumps, Bumped};
ghost use Rattle.trie_leaf.specs.inner.Planting.{Plants, Planted};

use crate::moves::{put_half, shift};
use trie_pool::{COUNT, FIRST, IN_USE, NODE};

// Adds one to the first child of each node from `low` to `high`.
// Kept: (2) bump and lower differ in + and -, and a step as a parameter would be longer than both.
fn bump(p: &mut [u32], low: usize, high: usize)
    requires { Bumps p.old low high }
    ensures { Bumped p.old p.new low high }
{
    for i in low..high {
        p[NODE * i + FIRST] += 1;
    }
}

// Puts a leaf in at j, under b, among n nodes. It ends no word yet.
// Kept: (6) here and in pluck: the nodes in use, behind which there is room for one more.
pub fn plant(p: &mut [u32], n: usize, b: usize, j: usize, x: u32)
    requires { Plants p.old n b j x }
    ensures { Planted p.old p.new n b j x }
{
    let a = NODE * j;
    // The leaf's children would stand right behind those of the node before it.
    let f = p[a - 7] + p[a - 6];
    shift(p, j, n);
    put_half(p, a, x, f, 0, 0);
    bump(p, b + 1, n + 1);
    p[NODE * b + COUNT] += 1;
    p[IN_USE] = (n + 1) as u32;
}
