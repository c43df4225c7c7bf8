// Telling the reasons of a cut, part by part: each part is cut plainly, and then its tokens are
// told, while the part and its start are at hand. What is told of a token is one cell: eight times
// its end, and its reason.
#![tactic(auto)]

ghost use Rattle.std.specs.Prelude.{◌≡◌, ◌++◌, ℕ, ◌+◌, ◌≤◌, length, drop};
ghost use Rattle.trie_pool.specs.Words.{holds};
ghost use Rattle.newmm_rules.specs.Limits.{text_scan_begin, text_scan_end};
ghost use Rattle.newmm_answers.specs.Answers.{plain_cut};
ghost use Rattle.newmm_reasons_answers.specs.inner.Cells.{cells_part, part_cells, text_cells};
ghost use Rattle.newmm_one_cut.specs.inner.Strips.{Fresh};
ghost use Rattle.newmm_segment.specs.inner.Written.{Ready, Written};
ghost use Rattle.newmm_tell.specs.inner.Telling.{CutPart, cells_as_many};

use newmm_bfs::{CLUSTER_ENDS, EDGE_ENDS, STRIPS};
use newmm_one_cut::cut_marked;
use newmm_reason_at::reason_at;
use newmm_reasons_answers::REASONS;
use newmm_rules::{Ends, MAX_GRAPH_SIZE, Mode, TEXT_SCAN_END};
use newmm_segment::{PartWriter, in_parts, space_cut};

// Kept: (6) the flags stand in the same row behind the ends, so the row is lent whole with their
// number.

// Tells each of the k tokens of a part whose ends stand at the front of the row, and the flags of
// its cluster ends in their strip.
fn tell(part: &[u32], pool: &[u32], row: &mut [u32], k: usize, start: usize)
    requires { CutPart part.now pool.now row.old k × (start + length part.now ≤ 65535) }
    ensures { row.new
        ≡ cells_part (holds pool.now) start part.now ++ drop k row.old }
{
    let m = part.len() + 1;
    let flags = CLUSTER_ENDS * m;
    let flags_end = EDGE_ENDS * m;
    let mut b = 0;
    for i in 0..k {
        let e = row[i] as usize;
        let reason = reason_at(part, pool, &row[flags..flags_end], b, e);
        row[i] = REASONS * (start + e) as u32 + reason.number();
        b = e;
    }
}

// Cuts a part plainly, and tells its tokens, in a row of just the cells that the cut takes.
fn tell_strips(part: &[u32], pool: &[u32], row: &mut [u32], start: usize) -> Ends
    requires { Fresh part.now pool.now row.old × (start + length part.now ≤ 65535) }
    ensures { Written (part_cells (holds pool.now) start part.now)
        row.old row.new result }
{
    let r = cut_marked(part, pool, row);
    tell(part, pool, row, r.ends, start);
    row[r.ends..].fill(0);
    r
}

// A part's tokens, told.
struct PartCells;

impl PartWriter for PartCells {
    ghost told = { cells_part };

    ghost as_many = { cells_as_many };

    fn write(part: &[u32], pool: &[u32], row: &mut [u32], start: usize) -> Ends {
        let m = part.len() + 1;
        let cells = STRIPS * m + MAX_GRAPH_SIZE;
        tell_strips(part, pool, &mut row[..cells], start)
    }
}

// Tells a text in a mode: its cells stand at the front of the row, whose other cells are as they
// were.
// Kept: (2) as `segment_single`, but for a text as a whole, which that one cuts with no shift.
pub fn tell_text(text: &[u32], pool: &[u32], row: &mut [u32], mode: Mode) -> Ends
    requires { Ready text.now pool.now row.old }
    ensures { Written (text_cells mode (holds pool.now) text.now)
        row.old row.new result }
{
    if text.len() < TEXT_SCAN_END {
        return PartCells::write(text, pool, row, 0);
    }
    let Some(space_cut) = space_cut(mode) else {
        return PartCells::write(text, pool, row, 0);
    };
    in_parts::<PartCells>(text, pool, row, space_cut)
}
