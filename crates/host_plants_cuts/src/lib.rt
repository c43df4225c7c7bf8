// Cutting by the words of a plant, as hosts are told it.
#![tactic(auto)]

ghost use Rattle.newmm_answers.specs.Calls.{call};
ghost use Rattle.host_telling.specs.Told.{told_cut};
ghost use Rattle.host_plants_cuts.specs.Calls.{PlantCutTold, PlantReasonsTold};

use host_telling::tell_cut;
use newmm_plants::cut_in;
use newmm_plants_reasons::cut_reasons_in;
use newmm_rules::Mode;
use trie_plants::Plant;

// Cuts a text in a mode by the words of a plant: the ends of its tokens, in characters, at the front
// of out; accepted with their number and that of the edges. Refusals 2 to 6.
pub fn cut(
    text: &[u32],
    pool: &[u32],
    plant: Plant,
    out: &mut [u32],
    scratch: &mut [u32],
    mode: Mode,
    count: &mut usize,
    edges: &mut usize,
    detail: &mut usize,
) -> u32
    ensures { PlantCutTold plant
        (call text.now pool.now out.old scratch.old mode)
        (told_cut result count.new edges.new detail.new)
        out.new scratch.new }
{
    let ends = cut_in(text, pool, plant, out, scratch, mode);
    tell_cut(ends, count, edges, detail)
}

// Cuts a text in a mode by the words of a plant, with reasons: for each token a pair of cells at the
// front of pairs, its end in characters and its reason; accepted with the number of pairs and that
// of the edges. Where a text is cut in parts, a reason is about the part. Refusals 2 to 6; 6 counts
// pairs.
pub fn cut_reasons(
    text: &[u32],
    pool: &[u32],
    plant: Plant,
    pairs: &mut [u32],
    scratch: &mut [u32],
    mode: Mode,
    count: &mut usize,
    edges: &mut usize,
    detail: &mut usize,
) -> u32
    ensures { PlantReasonsTold plant
        (call text.now pool.now pairs.old scratch.old mode)
        (told_cut result count.new edges.new detail.new)
        pairs.new scratch.new }
{
    let reasons = cut_reasons_in(text, pool, plant, pairs, scratch, mode);
    tell_cut(reasons, count, edges, detail)
}
