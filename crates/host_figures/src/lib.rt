// Release figures, as hosts are told of them.
#![tactic(auto)]

ghost use Rattle.std.specs.Prelude.{◌≡◌};
ghost use Rattle.newmm_answers.specs.Calls.{call};
ghost use Rattle.host_telling.specs.Told.{told, told_cut, tells};
ghost use Rattle.host_figures.specs.Calls.{FeedTold, RefusedTold, JoinTold};

use figures::join;
use figures_cells::Figures;
use host_telling::{tell, tell_cut};
use newmm_rules::Mode;
use refusal::Refusal;

// Cuts a text in a mode, with reasons, and adds what became of it to the figures: as the cut with
// reasons, and refusal 13 before all others.
pub fn feed(
    figures: &mut Figures,
    text: &[u32],
    pool: &[u32],
    pairs: &mut [u32],
    scratch: &mut [u32],
    mode: Mode,
    count: &mut usize,
    edges: &mut usize,
    detail: &mut usize,
) -> u32
    ensures { FeedTold figures.old
        (call text.now pool.now pairs.old scratch.old mode)
        (told_cut result count.new edges.new detail.new)
        figures.new pairs.new scratch.new }
{
    let fed = figures::feed(figures, text, pool, pairs, scratch, mode);
    tell_cut(fed, count, edges, detail)
}

// Tells an answer that is refused or accepted with 0.
fn tell_only(a: Result<usize, Refusal>, detail: &mut usize) -> u32
    requires { (tells a).count ≡ 0 }
    ensures { told result 0 detail.new ≡ tells a }
{
    let mut count = 0;
    tell(a, &mut count, detail)
}

// Adds a text that was refused before it could be fed, by its refusal's number. Refusal 13.
pub fn feed_refused(figures: &mut Figures, number: u32, detail: &mut usize) -> u32
    ensures { RefusedTold figures.old number
        (told result 0 detail.new) figures.new }
{
    let refused = figures::feed_refused(figures, number);
    tell_only(refused, detail)
}

// Adds the figures of another batch. Refusal 13.
pub fn join_figures(figures: &mut Figures, more: &Figures, detail: &mut usize) -> u32
    ensures { JoinTold figures.old more.now
        (told result 0 detail.new) figures.new }
{
    let joined = join(figures, more);
    tell_only(joined, detail)
}
