// A pool without words.
ghost use Rattle.std.specs.Prelude.{◌≤◌, length};
ghost use Rattle.trie_pool.specs.Cells.{node_cells};
ghost use Rattle.trie_change.specs.inner.Resetting.{RootAlone};

use trie_pool::{FIRST, IN_USE};

// Sets the cells to a dictionary without words: the root alone.
pub fn reset(cells: &mut [u32])
    requires { node_cells ≤ length cells.old }
    ensures { RootAlone cells.new }
{
    cells.fill(0);
    cells[FIRST] = 1;
    cells[IN_USE] = 1;
}
