// Cutting: a call for each mode.
ghost use Rattle.newmm_rules.specs.declared.Mode.TheVariants.{Plain, Safe, Sheet};
ghost use Rattle.newmm_answers.specs.Calls.{call};
ghost use Rattle.host_telling.specs.Told.{told_cut};
ghost use Rattle.host_cuts.specs.Calls.{CutTold};

use newmm_rules::Mode::{Plain, Safe, Sheet};

// Cuts a text plainly: the ends of its tokens, in characters, at the front of out; accepted with
// their number and that of the edges. Refusals 2 to 6.
pub fn fetlockice_cut_plain(
    text: &[u32],
    pool: &[u32],
    out: &mut [u32],
    scratch: &mut [u32],
    count: &mut usize,
    edges: &mut usize,
    detail: &mut usize,
) -> u32
    ensures { CutTold
        (call text.now pool.now out.old scratch.old Plain)
        (told_cut result count.new edges.new detail.new)
        out.new scratch.new }
{
    host_cuts::cut(text, pool, out, scratch, Plain, count, edges, detail)
}

// Cuts a text in safe mode; the rest as in the plain cut.
pub fn fetlockice_cut_safe(
    text: &[u32],
    pool: &[u32],
    out: &mut [u32],
    scratch: &mut [u32],
    count: &mut usize,
    edges: &mut usize,
    detail: &mut usize,
) -> u32
    ensures { CutTold
        (call text.now pool.now out.old scratch.old Safe)
        (told_cut result count.new edges.new detail.new)
        out.new scratch.new }
{
    host_cuts::cut(text, pool, out, scratch, Safe, count, edges, detail)
}

// Cuts a text by the profile "sheet"; the rest as in the plain cut.
pub fn fetlockice_cut_sheet(
    text: &[u32],
    pool: &[u32],
    out: &mut [u32],
    scratch: &mut [u32],
    count: &mut usize,
    edges: &mut usize,
    detail: &mut usize,
) -> u32
    ensures { CutTold
        (call text.now pool.now out.old scratch.old Sheet)
        (told_cut result count.new edges.new detail.new)
        out.new scratch.new }
{
    host_cuts::cut(text, pool, out, scratch, Sheet, count, edges, detail)
}
