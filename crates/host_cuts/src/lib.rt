// Cutting, as hosts are told it.
#![tactic(auto)]

ghost use Rattle.newmm_answers.specs.Calls.{call};
ghost use Rattle.host_telling.specs.Told.{told_cut};
ghost use Rattle.host_cuts.specs.Calls.{CutTold};

// Kept: (2) the cut with reasons (host_reasons), those of a plant (host_plants_cuts) and those of many
// texts differ in the library's function and in what it promises; alike are one call and the telling.
use host_telling::tell_cut;
use newmm_rules::Mode;

// Cuts a text in a mode: the ends of its tokens, in characters, at the front of out; accepted with
// their number and that of the edges. Refusals 2 to 6.
pub fn cut(
    text: &[u32],
    pool: &[u32],
    out: &mut [u32],
    scratch: &mut [u32],
    mode: Mode,
    count: &mut usize,
    edges: &mut usize,
    detail: &mut usize,
) -> u32
    ensures { CutTold
        (call text.now pool.now out.old scratch.old mode)
        (told_cut result count.new edges.new detail.new)
        out.new scratch.new }
{
    let ends = newmm::cut(text, pool, out, scratch, mode);
    tell_cut(ends, count, edges, detail)
}
