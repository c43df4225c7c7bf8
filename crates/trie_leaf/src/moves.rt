// The halves of nodes, written and moved.
ghost use Rattle.std.specs.Prelude.{◌+◌, ◌*◌, ◌≤◌, length};
ghost use Rattle.trie_pool.specs.Cells.{node_cells};
ghost use Rattle.trie_leaf.specs.inner.Moving.{Put, Copied, Shifted, Unshifted};

use trie_pool::{COUNT, FIRST, MARK, NODE};

// Writes the four cells of a half.
pub fn put_half(p: &mut [u32], a: usize, scalar: u32, first: u32, count: u32, mark: u32)
    requires { a + 4 ≤ length p.old }
    ensures { Put p.old p.new a scalar first count mark }
{
    p[a] = scalar;
    p[a + FIRST] = first;
    p[a + COUNT] = count;
    p[a + MARK] = mark;
}

// Writes the half that starts at `source` to the one that starts at `target`.
fn copy_half(p: &mut [u32], source: usize, target: usize)
    requires { (source + 4 ≤ length p.old) × (target + 4 ≤ length p.old) }
    ensures { Copied p.old p.new source target }
{
    let scalar = p[source];
    let first = p[source + FIRST];
    let count = p[source + COUNT];
    let mark = p[source + MARK];
    put_half(p, target, scalar, first, count, mark);
}

// Moves the halves of the nodes from `low` to `high` one node on.
// Kept: (2) shift goes down and unshift up, since each would overwrite what it has yet to read.
pub fn shift(p: &mut [u32], low: usize, high: usize)
    requires { (low ≤ high) × (node_cells * high + 4 ≤ length p.old) }
    ensures { Shifted p.old p.new low high }
{
    for k in (low..high).rev() {
        copy_half(p, NODE * k, NODE * k + NODE);
    }
}

// Moves the halves of the nodes behind `low`, up to `high`, one node back.
pub fn unshift(p: &mut [u32], low: usize, high: usize)
    requires { (low ≤ high) × (node_cells * high + 4 ≤ length p.old) }
    ensures { Unshifted p.old p.new low high }
{
    for k in low..high {
        copy_half(p, NODE * k + NODE, NODE * k);
    }
}
