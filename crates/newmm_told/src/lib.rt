// What is told of a text, in scratch: with the refusals of a cut, and one cell a token.
#![tactic(auto)]

ghost use Rattle.std.specs.Prelude.{length};
ghost use Rattle.trie_pool.specs.Meaning.{meaning};
ghost use Rattle.newmm_answers.specs.inner.Passing.{in_view, Sees, Blank};
ghost use Rattle.newmm_reasons_answers.specs.inner.Cells.{Tells};

use cells::clear_first;
use newmm_answers::check_cut;
use newmm_rules::{Ends, Mode};
use newmm_tell::tell_text;
use refusal::Refusal;
use trie_check::capacity;
use trie_pool::NODE;

// Tells a text that none of the refusals 2 to 5 is due to, by the words in a view of a pool, for a
// row with room for so many records. Scratch is all 0.
pub fn tell_ready(
    text: &[u32],
    view: &[u32],
    scratch: &mut [u32],
    room: usize,
    mode: Mode,
) -> Result<Ends, Refusal>
    requires { Sees text.now view.now (length scratch.old) × Blank scratch.old }
    ensures { Tells text.now (in_view view.now) scratch.old room mode
        result scratch.new }
{
    let r = tell_text(text, view, scratch, mode);
    let n = r.ends;
    if room < n {
        clear_first(scratch, n);
        return Err(Refusal::OutputTooShort(n));
    }
    Ok(Ends {
        ends: n,
        edges: r.edges,
    })
}

// The same, whatever scratch holds.
pub fn tell_checked(
    text: &[u32],
    view: &[u32],
    scratch: &mut [u32],
    room: usize,
    mode: Mode,
) -> Result<Ends, Refusal>
    requires { Sees text.now view.now (length scratch.old) }
    ensures { Tells text.now (in_view view.now) scratch.old room mode
        result scratch.new }
{
    scratch.fill(0);
    tell_ready(text, view, scratch, room, mode)
}

// Tells a text by the words of a pool, in a mode, for a row with room for so many records. What is
// told stands at the front of scratch then, one cell a token; a refused call leaves scratch as a
// refused cut does.
pub fn tell(
    text: &[u32],
    pool: &[u32],
    scratch: &mut [u32],
    room: usize,
    mode: Mode,
) -> Result<Ends, Refusal>
    ensures { Tells text.now (meaning pool.now) scratch.old room mode
        result scratch.new }
{
    check_cut(text, pool, scratch.len())?;
    let cells = NODE * capacity(pool.len());
    tell_checked(text, &pool[..cells], scratch, room, mode)
}
