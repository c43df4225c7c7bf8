// Cutting with reasons, as hosts are told it.
#![tactic(auto)]

ghost use Rattle.newmm_answers.specs.Calls.{call};
ghost use Rattle.host_telling.specs.Told.{told_cut};
ghost use Rattle.host_reasons.specs.Calls.{ReasonsTold};

use host_telling::tell_cut;
use newmm_rules::Mode;

// Cuts a text in a mode, with reasons: for each token a pair of cells at the front of pairs, its end
// in characters and its reason; accepted with the number of pairs and that of the edges. Where a
// text is cut in parts, a reason is about the part. Refusals 2 to 6; 6 counts pairs.
pub fn cut_reasons(
    text: &[u32],
    pool: &[u32],
    pairs: &mut [u32],
    scratch: &mut [u32],
    mode: Mode,
    count: &mut usize,
    edges: &mut usize,
    detail: &mut usize,
) -> u32
    ensures { ReasonsTold
        (call text.now pool.now pairs.old scratch.old mode)
        (told_cut result count.new edges.new detail.new)
        pairs.new scratch.new }
{
    let reasons = newmm_reasons::cut_reasons(text, pool, pairs, scratch, mode);
    tell_cut(reasons, count, edges, detail)
}
