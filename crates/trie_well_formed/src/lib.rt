// Whether a pool is well-formed: the rules, decided by a few walks over its cells, without
// recursion.
#![tactic(auto)]

ghost use Rattle.std.specs.Prelude.{◌≡◌, false, ℕ, ◌+◌, ◌*◌, ◌≤◌, ◌<◌, length, get_or};
ghost use Rattle.refusal.specs.Limits.{max_word};
ghost use Rattle.char_string_white_space.specs.Trimmed.{is_trimmed};
ghost use Rattle.trie_pool.specs.Cells.{node_cells, scalar_at};
ghost use Rattle.trie_pool.specs.inner.Sound.{Shaped};
ghost use Rattle.trie_pool.specs.Levels.{level_end};
ghost use Rattle.trie_pool.specs.Rules.{well_formed};
ghost use Rattle.trie_node.specs.inner.Checks.{Decides};

use char_string_white_space::is_trimmed;
use trie_nodes::nodes_ok;
use trie_pool::{COUNT, FIRST, IN_USE, MARK, MAX_NODES, MAX_WORD, NODE};

// Whether none of the nodes from 1 to k has a trimmed scalar.
// Kept: (6) here and below k and n count nodes or cells before those that are looked at.
pub fn starts_ok(p: &[u32], k: usize) -> bool
    requires { node_cells * k < length p.now }
    ensures { Decides result ((i : ℕ) → 0 < i → i ≤ k → is_trimmed (scalar_at p.now i) ≡ false) }
{
    for i in 1..k + 1 {
        if is_trimmed(p[NODE * i]) {
            return false;
        }
    }
    true
}

// Whether the nodes stand on at most 255 levels below the root.
pub fn shallow(p: &[u32], n: usize) -> bool
    requires { (Shaped p.now n) × (node_cells * n ≤ length p.now + 4) }
    ensures { Decides result (level_end p.now n max_word ≡ n) }
{
    let mut e: usize = 1;
    for _level in 0..MAX_WORD {
        if n <= e {
            return true;
        }
        e = p[NODE * e + FIRST] as usize;
    }
    n <= e
}

// Whether every cell from k on is 0.
pub fn blank(p: &[u32], k: usize) -> bool
    ensures { Decides result ((i : ℕ) → k ≤ i → get_or p.now i 0 ≡ 0) }
{
    let mut all: u32 = 0;
    for i in k..p.len() {
        all |= p[i];
    }
    all == 0
}

// Whether the cells of a pool are a plain dictionary: all rules hold. One walk over the nodes sees
// to both halves.
pub fn well_formed(p: &[u32]) -> bool
    ensures { result ≡ well_formed p.now }
{
    if p.len() < NODE {
        return false;
    }
    let n = p[IN_USE] as usize;
    if n == 0 {
        return false;
    }
    if MAX_NODES < n {
        return false;
    }
    if p.len() / NODE < n {
        return false;
    }
    if p[MARK] != 0 {
        return false;
    }
    if !blank(p, NODE * n) {
        return false;
    }
    if !nodes_ok::<NODE>(p, n) {
        return false;
    }
    if !starts_ok(p, p[COUNT] as usize) {
        return false;
    }
    if !shallow(p, n) {
        return false;
    }
    true
}
