// Whether a node of a dictionary, in one half of a pool, may stand where it does.
#![tactic(auto)]

ghost use Rattle.std.specs.Prelude.{◌+◌, ◌*◌, ◌≤◌, ◌<◌, length};
ghost use Rattle.refusal.specs.Limits.{max_nodes};
ghost use Rattle.trie_pool.specs.Cells.{node_cells};
ghost use Rattle.trie_node.specs.inner.Checks.{Decides, Legal, Inner, Stands};

use char_string_scalars::is_scalar;
use char_string_white_space::is_trimmed;
use trie_pool::{COUNT, FIRST, MARK, MAX_MARK, NODE};

// Most Thai characters, which nearly all nodes have. None of them is trimmed.
fn is_thai(x: u32) -> bool
    ensures { Decides result ((0xE01 ≤ x) × (x ≤ 0xE5B)) }
{
    matches!(x, 0xE01..=0xE5B)
}

// Whether a node that is not the root may have this scalar beside this mark.
fn scalar_ok(scalar: u32, mark: u32) -> bool
    ensures { Decides result (Legal scalar mark) }
{
    is_thai(scalar) || is_scalar(scalar) && (mark == 0 || !is_trimmed(scalar))
}

// Whether a node that is not the root may have this scalar, number of children and mark.
fn inner_ok(scalar: u32, count: u32, mark: u32) -> bool
    ensures { Decides result (Inner scalar count mark) }
{
    scalar_ok(scalar, mark) && (count != 0 || mark != 0) && mark <= MAX_MARK
}

// Whether node i, which is not the root, may stand where it does, if its children start at s.
pub fn node_ok(p: &[u32], i: usize, s: usize) -> bool
    requires { (0 < i) × (node_cells * i + 4 ≤ length p.now) × (s ≤ max_nodes) }
    ensures { Decides result (Stands p.now i s) }
{
    let a = NODE * i;
    p[a + FIRST] == s as u32 && inner_ok(p[a], p[a + COUNT], p[a + MARK])
}
