// Taking a word out.
ghost use Rattle.std.specs.Prelude.{◌≡◌, List, ℕ};
ghost use Rattle.trie_pool.specs.Words.{at};
ghost use Rattle.trie_pool.specs.inner.Paths.{reach};
ghost use Rattle.trie_change.specs.inner.Taking.{Prunes, Pruned, Removes, Removed};

use trie_child::find_child;
use trie_leaf::pluck;
use trie_pool::{COUNT, IN_USE, MARK, NODE};

// Drops the child j of b if it ends no word and has no child.
fn prune(p: &mut [u32], b: usize, j: usize)
    requires { Prunes p.old b j }
    ensures { Pruned p.old p.new b }
{
    if p[NODE * j + COUNT] != 0 {
        return;
    }
    if p[NODE * j + MARK] != 0 {
        return;
    }
    let n = p[IN_USE] as usize;
    pluck(p, n - 1, b, j);
}

// Takes the word out that goes on with w from b, pruning on the way back up.
pub fn remove_word(p: &mut [u32], b: usize, w: &[u32])
    requires { Removes p.old b w.now }
    ensures { (u : List ℕ) → reach p.old u ≡ at b →
        Removed p.old p.new u b w.now }
{
    if w.len() == 0 {
        p[NODE * b + MARK] = 0;
        return;
    }
    let Some(r) = find_child(p, b, w[0]) else {
        return;
    };
    remove_word(p, r, &w[1..]);
    prune(p, b, r);
}
