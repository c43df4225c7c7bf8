// One of many texts: what a single call would answer and leave, by a view of a pool, if it can be
// read.
#![tactic(auto)]

ghost use Rattle.std.specs.Prelude.{◌≡◌, true, length, replicate, Some, Ok, Err, IfSome, IfOk, IfErr};
ghost use Rattle.refusal.specs.Answers.{answer};
ghost use Rattle.trie_pool.specs.inner.Sound.{Readable};
ghost use Rattle.newmm_answers.specs.Answers.{first_causes};
ghost use Rattle.newmm_answers.specs.inner.Passing.{in_view, Sees, Blank};
ghost use Rattle.newmm_many_answers.specs.Singles.{reasons_singly, singly};
ghost use Rattle.newmm_many_answers.specs.inner.Singles.{SingleIs};
ghost use Rattle.newmm_many_turn.specs.inner.Knowing.{seen_in};

use char_string_scalars::check_text;
use newmm::cut_ready;
use newmm_answers::scratch_for;
use newmm_many_answers::Wanted;
use newmm_reasons::take_pairs;
use newmm_rules::{Ends, Mode};
use newmm_told::tell_ready;
use refusal::Refusal;

// Refusals 2, 3, 4 and 5 of a text, by the view of a pool, if it is a dictionary, and by the number
// of scratch cells; accepted with the view.
fn check_seen<'a>(text: &[u32], view: Option<&'a [u32]>, cells: usize) -> Result<&'a [u32], Refusal>
    ensures refused { IfErr result (λ r. Err r
        ≡ answer (first_causes text.now (seen_in view.entry) cells) (length text.now)) }
    ensures seen { IfOk result (λ v. (view.entry ≡ Some v) × (Ok (length text.now)
        ≡ answer (first_causes text.now (seen_in view.entry) cells) (length text.now))) }
{
    let n = check_text(text)?;
    let Some(seen) = view else {
        return Err(Refusal::NotADictionary);
    };
    let needed = scratch_for(n);
    if cells < needed {
        return Err(Refusal::ScratchTooShort(needed));
    }
    Ok(seen)
}

// Sets all cells to 0, which takes no step where they are known to be so.
// Kept: (5) the row is lent on bare to each call, so a type over it and its flag is taken apart
// again at once.
fn blank_all(row: &mut [u32], blank: bool)
    requires { blank ≡ true → Blank row.old }
    ensures { row.new ≡ replicate (length row.old) 0 }
{
    if !blank {
        row.fill(0);
    }
}

// The pairs of a text that none of the refusals 2 to 5 is due to. Scratch is all 0, and comes back
// so.
fn pairs_ready(
    text: &[u32],
    view: &[u32],
    out: &mut [u32],
    scratch: &mut [u32],
    mode: Mode,
) -> Result<Ends, Refusal>
    requires { Sees text.now view.now (length scratch.old) × Blank scratch.old }
    ensures { SingleIs (reasons_singly mode (in_view view.now)
        text.now out.old scratch.old)
        result out.new scratch.new }
{
    let told = tell_ready(text, view, scratch, out.len() / 2, mode);
    take_pairs(told, scratch, out);
    told
}

// What is wanted of such a text.
fn answer_ready(
    text: &[u32],
    view: &[u32],
    out: &mut [u32],
    scratch: &mut [u32],
    mode: Mode,
    wanted: Wanted,
) -> Result<Ends, Refusal>
    requires { Sees text.now view.now (length scratch.old) × Blank scratch.old }
    ensures { SingleIs (singly wanted mode (in_view view.now)
        text.now out.old scratch.old)
        result out.new scratch.new }
{
    // Kept: (7) one match on two names; a trait would repeat the single call's contract for both.
    match wanted {
        Wanted::Ends => cut_ready(text, view, out, scratch, mode),
        Wanted::Pairs => pairs_ready(text, view, out, scratch, mode),
    }
}

// Answers a text as the single call does, by a view, if it can be read. `blank` says whether
// scratch is known to be all 0.
pub fn answer_next(
    text: &[u32],
    view: Option<&[u32]>,
    out: &mut [u32],
    scratch: &mut [u32],
    blank: &mut bool,
    mode: Mode,
    wanted: Wanted,
) -> Result<Ends, Refusal>
    requires view { IfSome view (λ v. Readable v.now 0) }
    requires blank { blank.old ≡ true → Blank scratch.old }
    ensures single_is { SingleIs (singly wanted mode (seen_in view.entry)
        text.now out.old scratch.old)
        result out.new scratch.new }
    ensures blank { blank.new ≡ true → Blank scratch.new }
{
    let seen = check_seen(text, view, scratch.len())?;
    blank_all(scratch, *blank);
    *blank = true;
    answer_ready(text, seen, out, scratch, mode, wanted)
}
