// Release figures: fed one text at a time, and two batches in one.
#![tactic(auto)]

ghost use Rattle.std.specs.Prelude.{◌≡◌};
ghost use Rattle.newmm_answers.specs.Calls.{call};
ghost use Rattle.figures.specs.Calls.{Feeds, FeedsRefused, Joins};
ghost use Rattle.figures.specs.inner.Counting.{Countable, figures_in};

use cells::clear_first;
use figures_cells::{Figures, is_full, join_cells, of_cut, of_refused};
use newmm_many_answers::ends_told;
use newmm_reasons::take_pairs;
use newmm_rules::{Ends, Mode};
use newmm_told::tell;
use refusal::Refusal;

// The texts' refusals are 1 to 6.
const LAST_REFUSAL: u32 = 6;

// The figures of a text of so many characters, by what was answered and the cells of its tokens.
fn of_told(told: Result<Ends, Refusal>, characters: usize, cells: &[u32]) -> Figures
    requires { Countable told cells.now }
    ensures { result ≡ figures_in told characters cells.now }
{
    match told {
        Ok(cut) => of_cut(characters, &cells[..cut.ends], cut.edges),
        Err(r) => of_refused(r.number() as usize),
    }
}

// Cuts a text with reasons, and adds what became of it to the figures. Refusal 13 is given before
// all others; figures and output are then as they were, and scratch is as the call would else leave
// it.
pub fn feed(
    figures: &mut Figures,
    text: &[u32],
    pool: &[u32],
    out: &mut [u32],
    scratch: &mut [u32],
    mode: Mode,
) -> Result<Ends, Refusal>
    ensures { Feeds figures.old
        (call text.now pool.now out.old scratch.old mode)
        result figures.new out.new scratch.new }
{
    let told = tell(text, pool, scratch, out.len() / 2, mode);
    let k = ends_told(told);
    let one = of_told(told, text.len(), scratch);
    if is_full(figures, &one) {
        clear_first(scratch, k);
        return Err(Refusal::FiguresFull);
    }
    join_cells(figures, &one);
    take_pairs(told, scratch, out);
    told
}

// Adds a text that was refused before it could be fed, by the number of its refusal, 1 to 6. No
// other number is a text's: it changes nothing. Refusal 13.
pub fn feed_refused(figures: &mut Figures, number: u32) -> Result<usize, Refusal>
    ensures { FeedsRefused figures.old number result figures.new }
{
    if number < 1 {
        return Ok(0);
    }
    if LAST_REFUSAL < number {
        return Ok(0);
    }
    let one = of_refused(number as usize);
    join(figures, &one)
}

// Adds the figures of another batch. Refusal 13.
pub fn join(figures: &mut Figures, more: &Figures) -> Result<usize, Refusal>
    ensures { Joins figures.old more.now result figures.new }
{
    if is_full(figures, more) {
        return Err(Refusal::FiguresFull);
    }
    join_cells(figures, more);
    Ok(0)
}
