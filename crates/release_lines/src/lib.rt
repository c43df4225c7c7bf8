// A release's lines: count_line changes the words, or counts the text.
#![tactic(auto)]

ghost use Rattle.std.specs.Prelude.{◌≡◌};
ghost use Rattle.utf8.specs.Decoding.{scalars_of, room_in, decoded as decoded_of};
ghost use Rattle.newmm_answers.specs.Calls.{call};
ghost use Rattle.sheet_replies.specs.Replies.{text_of, PoolAfter};
ghost use Rattle.why_replies.specs.Replies.{asked};
ghost use Rattle.release_lines.specs.Counting.{fed_full, refused_full, figures_by, full_by, figures_after, full_after};

use figures::{feed, feed_refused};
use figures_cells::Figures;
use newmm_rules::{Ends, Mode};
use refusal::Refusal;
use sheet_replies::answer_line;
use why_replies::{cutting_in, text_in};

// The refusal of figures that are full.
const FULL: u8 = 13;

fn is_fed_full(told: Result<Ends, Refusal>) -> bool
    ensures { result ≡ fed_full told }
{
    match told {
        Ok(Ends { ends: _, edges: _ }) => false,
        Err(r) => r.number() == FULL,
    }
}

fn is_refused_full(told: Result<usize, Refusal>) -> bool
    ensures { result ≡ refused_full told }
{
    match told {
        Ok(_) => false,
        Err(_) => true,
    }
}

// Counts a text, and answers whether the figures are full.
fn count_text(
    text: &[u8],
    figures: &mut Figures,
    pool: &[u32],
    scalars: &mut [u32],
    positions: &mut [u32],
    pairs: &mut [u32],
    scratch: &mut [u32],
    mode: Mode,
) -> bool
    ensures value { result ≡ full_by
        (decoded_of text.now (room_in scalars.old positions.old)) figures.old
        (call (scalars_of text.now) pool.now pairs.old scratch.old mode) }
    ensures figures_after { figures.new ≡ figures_by
        (decoded_of text.now (room_in scalars.old positions.old)) figures.old
        (call (scalars_of text.now) pool.now pairs.old scratch.old mode) }
{
    let decoded = utf8::decode(text, scalars, positions);
    match decoded {
        Err(r) => is_refused_full(feed_refused(figures, r.number() as u32)),
        Ok(n) => is_fed_full(feed(figures, &scalars[..n], pool, pairs, scratch, mode)),
    }
}

// Does what a line asks: a word is added or removed, or a text is counted, whether it is cut or
// refused. Answers whether the figures are full: then the text is not counted.
pub fn count_line(
    line: &[u8],
    figures: &mut Figures,
    pool: &mut [u32],
    scalars: &mut [u32],
    positions: &mut [u32],
    pairs: &mut [u32],
    scratch: &mut [u32],
) -> bool
    ensures value { result ≡ full_after (asked line.now) figures.old (text_of line.now)
        pool.old pairs.old scratch.old
        (room_in scalars.old positions.old) }
    ensures figures_after { figures.new ≡ figures_after (asked line.now) figures.old
        (text_of line.now) pool.old pairs.old scratch.old
        (room_in scalars.old positions.old) }
    ensures pool_after { PoolAfter (asked line.now) (text_of line.now)
        pool.old pool.new (room_in scalars.old positions.old) }
{
    let cutting = cutting_in(line);
    match cutting {
        None => {
            let _ = answer_line(line, pool, scalars, positions, pairs, scratch);
            false
        }
        Some(mode) => count_text(
            text_in(line),
            figures,
            pool,
            scalars,
            positions,
            pairs,
            scratch,
            mode,
        ),
    }
}
