// Cutting a text into words with the reason of each break: pairs of cells, a token's end and its
// reason.
#![tactic(auto)]

ghost use Rattle.std.specs.Prelude.{◌≡◌, ◌++◌, ◌*◌, ◌≤◌, length, take, drop, replicate};
ghost use Rattle.newmm_answers.specs.Calls.{call};
ghost use Rattle.newmm_many_answers.specs.Turns.{ends_told};
ghost use Rattle.newmm_reasons_answers.specs.Calls.{Reasons};
ghost use Rattle.newmm_reasons_answers.specs.inner.Cells.{unpacked};

use cells::clear_first;
use newmm_many_answers::ends_told;
use newmm_reasons_answers::REASONS;
use newmm_rules::{Ends, Mode};
use newmm_told::tell;
use refusal::Refusal;

// The ends and reasons of cells, at the front of the output.
pub fn put_pairs(cells: &[u32], out: &mut [u32])
    requires { 2 * length cells.now ≤ length out.old }
    ensures { out.new ≡ unpacked cells.now ++ drop (2 * length cells.now) out.old }
{
    for (i, c) in cells.iter().enumerate() {
        out[2 * i] = *c / REASONS;
        out[2 * i + 1] = *c % REASONS;
    }
}

// Takes what was told out of the front of scratch, which is 0 there then, into pairs at the front
// of the output. A refused text has none.
pub fn take_pairs(told: Result<Ends, Refusal>, scratch: &mut [u32], out: &mut [u32])
    requires { (ends_told told ≤ length scratch.old) × (2 * ends_told told ≤ length out.old) }
    ensures out { out.new
        ≡ unpacked (take (ends_told told) scratch.old) ++ drop (2 * ends_told told) out.old }
    ensures scratch { scratch.new
        ≡ replicate (ends_told told) 0 ++ drop (ends_told told) scratch.old }
{
    let k = ends_told(told);
    put_pairs(&scratch[..k], out);
    clear_first(scratch, k);
}

// Cuts a text by the words of a pool, in a mode: for each token two cells of the output, its end
// and its reason. Answers the number of tokens and the number of edges recorded in the whole call.
// Refusals 2 to 6; 6 counts pairs.
pub fn cut_reasons(
    text: &[u32],
    pool: &[u32],
    out: &mut [u32],
    scratch: &mut [u32],
    mode: Mode,
) -> Result<Ends, Refusal>
    ensures { Reasons
        (call text.now pool.now out.old scratch.old mode)
        result out.new scratch.new }
{
    let told = tell(text, pool, scratch, out.len() / 2, mode);
    take_pairs(told, scratch, out);
    told
}
