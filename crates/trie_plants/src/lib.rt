// Two plants in one pool: each has a dictionary of its own in one half of the nodes, so they share
// no cell. The rules of such a pool and the words of each plant stand in specs/.
#![tactic(auto)]

ghost use Rattle.std.specs.Prelude.{◌≡◌};
ghost use Rattle.trie_plants.specs.Halves.{half_at};

use trie_pool::HALF;

// Whose words a call reads and changes.
#[derive(Clone, Copy, Debug, PartialEq, Eq)]
pub enum Plant {
    A,
    B,
}

// Where the half of a plant starts in each node.
// Kept: (7) it chooses a number, and no step.
pub fn half_at(plant: Plant) -> usize
    ensures { result ≡ half_at plant }
{
    match plant {
        Plant::A => 0,
        Plant::B => HALF,
    }
}
