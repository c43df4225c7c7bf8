// Cutting a text by the words of one plant of a plants' pool.
#![tactic(auto)]

ghost use Rattle.std.specs.Prelude.{◌≡◌, length};
ghost use Rattle.refusal.specs.Answers.{answer};
ghost use Rattle.trie_plants.specs.Meaning.{plant_meaning};
ghost use Rattle.newmm_answers.specs.Answers.{first_causes};
ghost use Rattle.newmm_answers.specs.Calls.{call};
ghost use Rattle.newmm_plants.specs.Calls.{PlantCuts};

use newmm::cut_checked;
use newmm_answers::scratch_for;
use newmm_rules::{Ends, Mode};
use refusal::Refusal;
use trie_check::capacity;
use trie_plants::{Plant, half_at};
use trie_plants_check::check_plant;
use trie_pool::NODE;

// Refusals 2, 3, 4 and 5, by the number of scratch cells; accepted with the text's length.
pub fn check_plant_cut(
    text: &[u32],
    pool: &[u32],
    plant: Plant,
    cells: usize,
) -> Result<usize, Refusal>
    ensures { result ≡ answer (first_causes text.now (plant_meaning plant pool.now) cells)
        (length text.now) }
{
    let n = check_plant(pool, plant, text)?;
    let needed = scratch_for(n);
    if cells < needed {
        return Err(Refusal::ScratchTooShort(needed));
    }
    Ok(n)
}

// Kept: (2) this and newmm::cut are a check and a view before one shared call, newmm::cut_checked.
// Cuts a text by a plant's words, in a mode: the ends of the tokens, rising, at the front of the
// output. Answers their number and the number of edges recorded in the whole call. Refusals 2 to 6.
pub fn cut_in(
    text: &[u32],
    pool: &[u32],
    plant: Plant,
    out: &mut [u32],
    scratch: &mut [u32],
    mode: Mode,
) -> Result<Ends, Refusal>
    ensures { PlantCuts plant
        (call text.now pool.now out.old scratch.old mode)
        result out.new scratch.new }
{
    check_plant_cut(text, pool, plant, scratch.len())?;
    let cells = NODE * capacity(pool.len());
    let a = half_at(plant);
    cut_checked(text, &pool[a..cells], out, scratch, mode)
}
