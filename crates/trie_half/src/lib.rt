// Whether a dictionary stands in one half of a pool's nodes: the rules of a half, decided by walks
// that look at its cells alone.
#![tactic(auto)]

ghost use Rattle.std.specs.Prelude.{◌≡◌, ℕ, ◌+◌, ◌*◌, ◌%◌, ◌≤◌, ◌<◌, length, get_or};
ghost use Rattle.refusal.specs.Limits.{max_nodes};
ghost use Rattle.trie_pool.specs.Cells.{node_cells};
ghost use Rattle.trie_pool.specs.Rules.{in_half};
ghost use Rattle.trie_node.specs.inner.Checks.{Decides};

use trie_nodes::nodes_ok;
use trie_pool::{COUNT, HALF, IN_USE, NODE};
use trie_well_formed::{shallow, starts_ok};

// Whether the cells of the half are 0 in each node from n on.
// Kept: (6) n counts the nodes before those that are looked at.
fn unused_ok(p: &[u32], n: usize) -> bool
    requires { (n ≤ max_nodes) × (length p.now % 4 ≡ 0) }
    ensures { Decides result ((i k : ℕ) → n ≤ i → k < 4 → get_or p.now (node_cells * i + k) 0 ≡ 0) }
{
    let mut first: u32 = 0;
    let mut second: u32 = 0;
    let mut third: u32 = 0;
    let mut fourth: u32 = 0;
    for i in n..(p.len() + HALF) / NODE {
        let a = NODE * i;
        first |= p[a];
        second |= p[a + 1];
        third |= p[a + 2];
        fourth |= p[a + 3];
    }
    first | second | third | fourth == 0
}

// Whether a dictionary of at most `most` nodes stands in the half that starts with the first cell.
// The cells may end with the half of the last node.
pub fn half_ok(p: &[u32], most: usize) -> bool
    requires { (4 ≤ length p.now) × (length p.now % 4 ≡ 0) × (most ≤ max_nodes)
        × (node_cells * most ≤ length p.now + 4) }
    ensures { result ≡ in_half most p.now }
{
    let n = p[IN_USE] as usize;
    if n == 0 {
        return false;
    }
    if most < n {
        return false;
    }
    if !unused_ok(p, n) {
        return false;
    }
    if !nodes_ok::<HALF>(p, n) {
        return false;
    }
    if !starts_ok(p, p[COUNT] as usize) {
        return false;
    }
    if !shallow(p, n) {
        return false;
    }
    true
}
