// Where the levels of a trie start, by how many nodes each has.
#![tactic(auto)]

ghost use Rattle.image_starts.specs.inner.Starts.{Counts, Begins};

// Turns the numbers of nodes of the levels into their first free nodes, the root alone standing.
pub fn starts(levels: &mut [usize; 257])
    requires { Counts levels.old }
    ensures { Begins levels.old levels.new }
{
    let mut first = 1;
    for d in 1..256 {
        let count = levels[d];
        levels[d] = first;
        first += count;
    }
    levels[0] = 1;
    levels[256] = first;
}
