// Release figures: a call for each mode, one for a text that was refused before it could be fed,
// and one that joins two batches.
ghost use Rattle.newmm_rules.specs.declared.Mode.TheVariants.{Plain, Safe, Sheet};
ghost use Rattle.newmm_answers.specs.Calls.{call};
ghost use Rattle.host_telling.specs.Told.{told, told_cut};
ghost use Rattle.host_figures.specs.Calls.{FeedTold, RefusedTold, JoinTold};

use figures_cells::Figures;
use newmm_rules::Mode::{Plain, Safe, Sheet};

// Cuts a text plainly, with reasons, and adds what became of it to the figures: as the cut with
// reasons, and refusal 13 before all others.
pub fn fetlockice_feed_plain(
    figures: &mut Figures,
    text: &[u32],
    pool: &[u32],
    pairs: &mut [u32],
    scratch: &mut [u32],
    count: &mut usize,
    edges: &mut usize,
    detail: &mut usize,
) -> u32
    ensures { FeedTold figures.old
        (call text.now pool.now pairs.old scratch.old Plain)
        (told_cut result count.new edges.new detail.new)
        figures.new pairs.new scratch.new }
{
    host_figures::feed(
        figures, text, pool, pairs, scratch, Plain, count, edges, detail,
    )
}

// The same in safe mode. A reason is about the part.
pub fn fetlockice_feed_safe(
    figures: &mut Figures,
    text: &[u32],
    pool: &[u32],
    pairs: &mut [u32],
    scratch: &mut [u32],
    count: &mut usize,
    edges: &mut usize,
    detail: &mut usize,
) -> u32
    ensures { FeedTold figures.old
        (call text.now pool.now pairs.old scratch.old Safe)
        (told_cut result count.new edges.new detail.new)
        figures.new pairs.new scratch.new }
{
    host_figures::feed(
        figures, text, pool, pairs, scratch, Safe, count, edges, detail,
    )
}

// The same by the profile "sheet".
pub fn fetlockice_feed_sheet(
    figures: &mut Figures,
    text: &[u32],
    pool: &[u32],
    pairs: &mut [u32],
    scratch: &mut [u32],
    count: &mut usize,
    edges: &mut usize,
    detail: &mut usize,
) -> u32
    ensures { FeedTold figures.old
        (call text.now pool.now pairs.old scratch.old Sheet)
        (told_cut result count.new edges.new detail.new)
        figures.new pairs.new scratch.new }
{
    host_figures::feed(
        figures, text, pool, pairs, scratch, Sheet, count, edges, detail,
    )
}

// Adds a text that was refused before it could be fed, by its refusal's number. Refusal 13.
pub fn fetlockice_feed_refused(figures: &mut Figures, number: u32, detail: &mut usize) -> u32
    ensures { RefusedTold figures.old number
        (told result 0 detail.new) figures.new }
{
    host_figures::feed_refused(figures, number, detail)
}

// Adds the figures of another batch. Refusal 13.
pub fn fetlockice_join_figures(figures: &mut Figures, more: &Figures, detail: &mut usize) -> u32
    ensures { JoinTold figures.old more.now
        (told result 0 detail.new) figures.new }
{
    host_figures::join_figures(figures, more, detail)
}
