// Cutting with reasons: a call for each mode.
ghost use Rattle.newmm_rules.specs.declared.Mode.TheVariants.{Plain, Safe, Sheet};
ghost use Rattle.newmm_answers.specs.Calls.{call};
ghost use Rattle.host_telling.specs.Told.{told_cut};
ghost use Rattle.host_reasons.specs.Calls.{ReasonsTold};

use newmm_rules::Mode::{Plain, Safe, Sheet};

// Cuts a text plainly, with reasons: for each token a pair of cells at the front of pairs, its end
// in characters and its reason; accepted with the number of pairs and that of the edges. Refusals 2
// to 6; 6 counts pairs.
pub fn fetlockice_reasons_plain(
    text: &[u32],
    pool: &[u32],
    pairs: &mut [u32],
    scratch: &mut [u32],
    count: &mut usize,
    edges: &mut usize,
    detail: &mut usize,
) -> u32
    ensures { ReasonsTold
        (call text.now pool.now pairs.old scratch.old Plain)
        (told_cut result count.new edges.new detail.new)
        pairs.new scratch.new }
{
    host_reasons::cut_reasons(text, pool, pairs, scratch, Plain, count, edges, detail)
}

// The same in safe mode. A reason is about the part.
pub fn fetlockice_reasons_safe(
    text: &[u32],
    pool: &[u32],
    pairs: &mut [u32],
    scratch: &mut [u32],
    count: &mut usize,
    edges: &mut usize,
    detail: &mut usize,
) -> u32
    ensures { ReasonsTold
        (call text.now pool.now pairs.old scratch.old Safe)
        (told_cut result count.new edges.new detail.new)
        pairs.new scratch.new }
{
    host_reasons::cut_reasons(text, pool, pairs, scratch, Safe, count, edges, detail)
}

// The same by the profile "sheet".
pub fn fetlockice_reasons_sheet(
    text: &[u32],
    pool: &[u32],
    pairs: &mut [u32],
    scratch: &mut [u32],
    count: &mut usize,
    edges: &mut usize,
    detail: &mut usize,
) -> u32
    ensures { ReasonsTold
        (call text.now pool.now pairs.old scratch.old Sheet)
        (told_cut result count.new edges.new detail.new)
        pairs.new scratch.new }
{
    host_reasons::cut_reasons(text, pool, pairs, scratch, Sheet, count, edges, detail)
}
