// A pool as it is lent to a plant call: whether it is a plants' pool, and the refusals that plant
// calls on a text or a word give.
#![tactic(auto)]

ghost use Rattle.std.specs.Prelude.{◌≡◌, true, ◌*◌, ◌%◌, ◌≤◌, length, drop};
ghost use Rattle.refusal.specs.Answers.{answer};
ghost use Rattle.refusal.specs.Limits.{max_nodes};
ghost use Rattle.trie_pool.specs.Cells.{node_cells};
ghost use Rattle.trie_pool.specs.Rules.{in_half};
ghost use Rattle.trie_node.specs.inner.Checks.{Decides};
ghost use Rattle.trie_check.specs.Refusals.{read_causes};
ghost use Rattle.trie_char_answers.specs.Refusals.{remove_causes};
ghost use Rattle.trie_plants.specs.Rules.{is_plants};
ghost use Rattle.trie_plants.specs.Meaning.{plant_meaning};

use char_string_scalars::check_text;
use char_string_trim::trim;
use refusal::Refusal;
use trie_check::capacity;
use trie_half::half_ok;
use trie_plants::Plant;
use trie_pool::{HALF, IN_USE, MARK, MAX_WORD, NODE};
use trie_well_formed::blank;

// Whether a dictionary of at most a nodes stands in the first halves and one of at most b in the
// second. The nodes that neither uses are read once, all cells alike.
fn halves_ok(p: &[u32], a: usize, b: usize) -> bool
    requires { (node_cells ≤ length p.now) × (length p.now % node_cells ≡ 0) × (a ≤ max_nodes) × (b ≤ max_nodes)
        × (node_cells * a ≤ length p.now) × (node_cells * b ≤ length p.now) }
    ensures { Decides result ((in_half a p.now ≡ true) × (in_half b (drop 4 p.now) ≡ true)) }
{
    let u = p[IN_USE] as usize;
    if u == 0 {
        return false;
    }
    if a < u {
        return false;
    }
    let v = p[HALF + IN_USE] as usize;
    if b < v {
        return false;
    }
    let n = u.max(v);
    let cells = NODE * n;
    if !blank(p, cells) {
        return false;
    }
    if !half_ok(&p[..cells], n) {
        return false;
    }
    half_ok(&p[HALF..cells], n)
}

// Whether the pool is a plants' pool.
pub fn is_plants(pool: &[u32]) -> bool
    ensures { result ≡ is_plants pool.now }
{
    let n = capacity(pool.len());
    if n == 0 {
        return false;
    }
    let a = pool[MARK] as usize;
    if n < a {
        return false;
    }
    let b = pool[HALF + MARK] as usize;
    if n < b {
        return false;
    }
    if n + 1 < a + b {
        return false;
    }
    halves_ok(&pool[..NODE * n], a, b)
}

// Refusals 2, 3 and 4, accepted with the text's length.
// Kept: (2) this and the next differ from the plain checks in the rules that the pool is held to, and
// share the rest by calling it: check_text and trim.
pub fn check_plant(pool: &[u32], plant: Plant, text: &[u32]) -> Result<usize, Refusal>
    ensures { result ≡
        answer (read_causes text.now (plant_meaning plant pool.now))
        (length text.now) }
{
    let n = check_text(text)?;
    if !is_plants(pool) {
        return Err(Refusal::NotADictionary);
    }
    Ok(n)
}

// Refusals 2, 3, 4 and 7, which add and remove share; accepted with the word's length.
pub fn check_plant_word(pool: &[u32], plant: Plant, word: &[u32]) -> Result<usize, Refusal>
    ensures { result ≡
        answer (remove_causes word.now (plant_meaning plant pool.now))
        (length word.now) }
{
    let n = check_plant(pool, plant, word)?;
    let span = trim(word);
    let kept = span.end - span.start;
    if MAX_WORD < kept {
        return Err(Refusal::WordTooLong(kept));
    }
    Ok(n)
}
