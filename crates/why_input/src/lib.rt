// Input of any length, part by part, answered with reasons.
//   step  takes bytes up to the first line feed, and writes what is told for that line
//   last  writes what is told for a last line without a line feed
#![tactic(auto)]

ghost use Rattle.std.specs.Prelude.{◌≡◌, cond, eqb, length, take};
ghost use Rattle.sheet_bytes.specs.Lines.{line_end, laid};
ghost use Rattle.sheet_replies.specs.Replies.{text_of};
ghost use Rattle.sheet_input.specs.Feeding.{line_with, has_end, fed_with};
ghost use Rattle.why_replies.specs.Replies.{asked, RowsAfter, explained};
ghost use Rattle.why_input.specs.Feeding.{asked_if};

use sheet_bytes::{front, keep, line_end};
use sheet_input::Fed;
use why_replies::explain_line;

// The rows of a run are so long: those of `sheet_steps`, but for the pairs and the reply.
pub const LINE: usize = 1025;

pub const POOL: usize = 16384;

pub const TEXT: usize = 1023;

pub const POSITIONS: usize = 1024;

pub const SCRATCH: usize = 9335;

// An end and a reason for each of 1,023 characters.
pub const PAIRS: usize = 2046;

// The text of a line has at most 1,023 bytes, and so all its tokens together; beside its text a
// token's line has at most 48 bytes: two tabs, a line feed, twice four digits, and 37 of words. So
// what is told is whole: the contracts of `step` and `last` rest on this length.
pub const REPLY: usize = 50127;

// Takes the bytes up to the first line feed, behind the `kept` bytes of the line that `line` holds,
// and writes what is told for the line that ends there to the front of `out`, whole. Without a line
// feed all bytes are taken, and kept as far as they fit.
pub fn step(
    bytes: &[u8],
    line: &mut [u8],
    kept: usize,
    pool: &mut [u32],
    scalars: &mut [u32],
    positions: &mut [u32],
    pairs: &mut [u32],
    scratch: &mut [u32],
    out: &mut [u8; REPLY],
) -> Fed
    ensures value { result ≡ fed_with (has_end bytes.now) (line_end bytes.now)
        (length (line_with bytes.now line.old kept))
        (length (explained (line_with bytes.now line.old kept) pool.old
        scalars.old positions.old pairs.old (length scratch.old))) }
    ensures line_after { line.new ≡
        laid (line_with bytes.now line.old kept) line.old }
    ensures out_after { out.new ≡ cond (has_end bytes.now)
        (laid (explained (line_with bytes.now line.old kept) pool.old
        scalars.old positions.old pairs.old (length scratch.old))
        out.old)
        out.old }
    ensures rows_after { RowsAfter
        (asked_if (has_end bytes.now) (line_with bytes.now line.old kept))
        (text_of (line_with bytes.now line.old kept))
        pool.old pool.new scalars.old scalars.new
        positions.old positions.new
        pairs.old pairs.new scratch.old scratch.new }
{
    let end = line_end(bytes);
    let n = keep(line, kept, &bytes[..end]);
    if end == bytes.len() {
        return Fed {
            taken: end,
            kept: n,
            written: 0,
        };
    }
    let written = explain_line(
        front(line, n),
        pool,
        scalars,
        positions,
        pairs,
        scratch,
        out,
    );
    Fed {
        taken: end + 1,
        kept: 0,
        written,
    }
}

// Writes what is told for the line whose bytes are kept, whole, where there are any: a last line
// without a line feed.
pub fn last(
    line: &[u8],
    kept: usize,
    pool: &mut [u32],
    scalars: &mut [u32],
    positions: &mut [u32],
    pairs: &mut [u32],
    scratch: &mut [u32],
    out: &mut [u8; REPLY],
) -> usize
    ensures value { result ≡ cond (eqb kept 0) 0 (length (explained (take kept line.now) pool.old
        scalars.old positions.old pairs.old (length scratch.old))) }
    ensures out_after { out.new ≡ cond (eqb kept 0) out.old
        (laid (explained (take kept line.now) pool.old
        scalars.old positions.old pairs.old (length scratch.old))
        out.old) }
    ensures rows_after { RowsAfter (asked (take kept line.now)) (text_of (take kept line.now))
        pool.old pool.new scalars.old scalars.new
        positions.old positions.new
        pairs.old pairs.new scratch.old scratch.new }
{
    if kept == 0 {
        return 0;
    }
    explain_line(
        front(line, kept),
        pool,
        scalars,
        positions,
        pairs,
        scratch,
        out,
    )
}
