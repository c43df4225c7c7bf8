// Cutting a text into words, after newmm.rs: the call that a host makes.
#![tactic(auto)]

ghost use Rattle.std.specs.Prelude.{length};
ghost use Rattle.newmm_answers.specs.Calls.{call, Cuts};
ghost use Rattle.newmm_answers.specs.inner.Passing.{in_view, Sees, Blank, CutsBy};

use cells::copy;
use newmm_answers::check_cut;
use newmm_rules::{Ends, Mode};
use newmm_segment::segment_single;
use refusal::Refusal;
use trie_check::capacity;
use trie_pool::NODE;

// Cuts a text that none of the refusals 2 to 5 is due to, by the words in a view of a pool. Scratch
// is all 0, and comes back so.
pub fn cut_ready(
    text: &[u32],
    view: &[u32],
    out: &mut [u32],
    scratch: &mut [u32],
    mode: Mode,
) -> Result<Ends, Refusal>
    requires { Sees text.now view.now (length scratch.old) × Blank scratch.old }
    ensures { CutsBy (in_view view.now)
        text.now out.old scratch.old mode
        result out.new scratch.new }
{
    let r = segment_single(text, view, scratch, mode);
    let n = r.ends;
    if out.len() < n {
        scratch[..n].fill(0);
        return Err(Refusal::OutputTooShort(n));
    }
    copy(scratch, out, n);
    scratch[..n].fill(0);
    Ok(r)
}

// The same, whatever scratch holds.
pub fn cut_checked(
    text: &[u32],
    view: &[u32],
    out: &mut [u32],
    scratch: &mut [u32],
    mode: Mode,
) -> Result<Ends, Refusal>
    requires { Sees text.now view.now (length scratch.old) }
    ensures { CutsBy (in_view view.now)
        text.now out.old scratch.old mode
        result out.new scratch.new }
{
    scratch.fill(0);
    cut_ready(text, view, out, scratch, mode)
}

// Cuts a text by the words of a pool, in a mode: the ends of the tokens, rising, at the front of
// the output. Answers their number and the number of edges recorded in the whole call. Refusals 2
// to 6.
pub fn cut(
    text: &[u32],
    pool: &[u32],
    out: &mut [u32],
    scratch: &mut [u32],
    mode: Mode,
) -> Result<Ends, Refusal>
    ensures { Cuts (call text.now pool.now out.old scratch.old mode)
        result out.new scratch.new }
{
    check_cut(text, pool, scratch.len())?;
    let cells = NODE * capacity(pool.len());
    cut_checked(text, &pool[..cells], out, scratch, mode)
}
