// Cutting a text by the words of one plant, with the reason of each break: pairs of cells, a
// token's end and its reason.
#![tactic(auto)]

ghost use Rattle.trie_plants.specs.Meaning.{plant_meaning};
ghost use Rattle.newmm_answers.specs.Calls.{call};
ghost use Rattle.newmm_reasons_answers.specs.inner.Cells.{Tells};
ghost use Rattle.newmm_plants_reasons.specs.Calls.{PlantReasons};

use newmm_plants::check_plant_cut;
use newmm_reasons::take_pairs;
use newmm_rules::{Ends, Mode};
use newmm_told::tell_checked;
use refusal::Refusal;
use trie_check::capacity;
use trie_plants::{Plant, half_at};
use trie_pool::NODE;

// Kept: (2) this and newmm_told::tell are a check and a view before one shared call, tell_checked.
// Tells a text by a plant's words, in a mode, for a row with room for so many records. What is told
// stands at the front of scratch then, one cell a token; a refused call leaves scratch as a refused
// cut does.
fn tell_in(
    text: &[u32],
    pool: &[u32],
    plant: Plant,
    scratch: &mut [u32],
    room: usize,
    mode: Mode,
) -> Result<Ends, Refusal>
    ensures { Tells text.now (plant_meaning plant pool.now) scratch.old room mode
        result scratch.new }
{
    check_plant_cut(text, pool, plant, scratch.len())?;
    let cells = NODE * capacity(pool.len());
    let a = half_at(plant);
    tell_checked(text, &pool[a..cells], scratch, room, mode)
}

// Cuts a text by a plant's words, in a mode: for each token two cells of the output, its end and
// its reason. Answers the number of tokens and the number of edges recorded in the whole call.
// Refusals 2 to 6; 6 counts pairs.
pub fn cut_reasons_in(
    text: &[u32],
    pool: &[u32],
    plant: Plant,
    out: &mut [u32],
    scratch: &mut [u32],
    mode: Mode,
) -> Result<Ends, Refusal>
    ensures { PlantReasons plant
        (call text.now pool.now out.old scratch.old mode)
        result out.new scratch.new }
{
    let told = tell_in(text, pool, plant, scratch, out.len() / 2, mode);
    take_pairs(told, scratch, out);
    told
}
