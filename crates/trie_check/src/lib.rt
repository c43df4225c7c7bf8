// A pool as it is lent: which of its cells are read and written, whether it is a dictionary, and
// the refusals that every operation on a text and a pool gives.
#![tactic(auto)]

ghost use Rattle.std.specs.Prelude.{◌≡◌, ◌/◌, min, length};
ghost use Rattle.refusal.specs.Answers.{answer};
ghost use Rattle.refusal.specs.Limits.{max_nodes};
ghost use Rattle.trie_pool.specs.Cells.{node_cells};
ghost use Rattle.trie_pool.specs.Rules.{is_dictionary};
ghost use Rattle.trie_pool.specs.Meaning.{meaning};
ghost use Rattle.trie_check.specs.Refusals.{read_causes};

use char_string_scalars::check_text;
use refusal::Refusal;
use trie_pool::{MAX_NODES, NODE};
use trie_well_formed::well_formed;

// The nodes that a pool of so many cells has room for.
pub fn capacity(cells: usize) -> usize
    ensures { result ≡ min (cells / node_cells) max_nodes }
{
    (cells / NODE).min(MAX_NODES)
}

// Whether the pool is a dictionary.
pub fn is_dictionary(pool: &[u32]) -> bool
    ensures { result ≡ is_dictionary pool.now }
{
    let cells = NODE * capacity(pool.len());
    well_formed(&pool[..cells])
}

// Refusals 2, 3 and 4, accepted with the text's length.
pub fn check(pool: &[u32], text: &[u32]) -> Result<usize, Refusal>
    ensures { result ≡
        answer (read_causes text.now (meaning pool.now)) (length text.now) }
{
    let n = check_text(text)?;
    if !is_dictionary(pool) {
        return Err(Refusal::NotADictionary);
    }
    Ok(n)
}
