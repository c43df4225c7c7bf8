// The calls of a run, `step` and `last`: input of any length, part by part, with rows that hold
// every line and every reply.
#![tactic(auto)]

ghost use Rattle.std.specs.Prelude.{◌≡◌, cond, eqb, length, take};
ghost use Rattle.utf8.specs.Decoding.{room_in};
ghost use Rattle.sheet_bytes.specs.Lines.{line_end, laid};
ghost use Rattle.sheet_replies.specs.Replies.{asked, text_of, RowsAfter};
ghost use Rattle.sheet_texts.specs.Texts.{written, amount};
ghost use Rattle.sheet_input.specs.Feeding.{line_with, has_end, asked_if, told, fed_with};
ghost use Rattle.sheet_run.specs.Program.{Stepped, Finished};

use sheet_input::{Fed, feed, finish};

// The rows of a run are so long: a line, the pool, scalars and ends, positions, scratch, and the
// text of a reply.
// The contracts of `step` and `last` rest on these lengths.

// One more than the bytes that a line may have, so that a longer line is known by its first bytes.
pub const LINE: usize = 1025;

// A pool of 2,048 nodes.
pub const POOL: usize = 16384;

// The most characters that the text of a line has, and the most ends.
pub const TEXT: usize = 1023;

// The positions of such a text's characters, and that of its end.
pub const POSITIONS: usize = 1024;

// What cutting such a text asks: 9n+128.
pub const SCRATCH: usize = 9335;

// Every end of such a text takes at most four digits and a space or a line feed.
pub const REPLY: usize = 5115;

// As `feed`. What it writes comes next in the run, whole, whatever parts the input comes in.
pub fn step(
    bytes: &[u8],
    line: &mut [u8; LINE],
    kept: usize,
    pool: &mut [u32; POOL],
    scalars: &mut [u32; TEXT],
    positions: &mut [u32; POSITIONS],
    ends: &mut [u32; TEXT],
    scratch: &mut [u32; SCRATCH],
    out: &mut [u8; REPLY],
) -> Fed
    ensures stepped { Stepped bytes.now line.old kept pool.old
        line.new pool.new out.new result }
    ensures value { result ≡ fed_with (has_end bytes.now) (line_end bytes.now)
        (length (line_with bytes.now line.old kept))
        (amount (told (line_with bytes.now line.old kept) pool.old
        (room_in scalars.old positions.old)
        (length scratch.old) ends.old) out.old) }
    ensures line_after { line.new ≡
        laid (line_with bytes.now line.old kept) line.old }
    ensures out_after { out.new ≡ cond (has_end bytes.now)
        (written (told (line_with bytes.now line.old kept) pool.old
        (room_in scalars.old positions.old)
        (length scratch.old) ends.old) out.old)
        out.old }
    ensures rows_after { RowsAfter
        (asked_if (has_end bytes.now) (line_with bytes.now line.old kept))
        (text_of (line_with bytes.now line.old kept))
        pool.old pool.new scalars.old scalars.new
        positions.old positions.new
        ends.old ends.new scratch.old scratch.new }
{
    feed(
        bytes, line, kept, pool, scalars, positions, ends, scratch, out,
    )
}

// As `finish`. What it writes is all that is left of the run.
pub fn last(
    line: &[u8; LINE],
    kept: usize,
    pool: &mut [u32; POOL],
    scalars: &mut [u32; TEXT],
    positions: &mut [u32; POSITIONS],
    ends: &mut [u32; TEXT],
    scratch: &mut [u32; SCRATCH],
    out: &mut [u8; REPLY],
) -> usize
    ensures finished { Finished line.now kept pool.old out.new result }
    ensures value { result ≡ cond (eqb kept 0) 0 (amount (told (take kept line.now) pool.old
        (room_in scalars.old positions.old)
        (length scratch.old) ends.old) out.old) }
    ensures out_after { out.new ≡ cond (eqb kept 0) out.old
        (written (told (take kept line.now) pool.old
        (room_in scalars.old positions.old)
        (length scratch.old) ends.old) out.old) }
    ensures rows_after { RowsAfter (asked (take kept line.now)) (text_of (take kept line.now))
        pool.old pool.new scalars.old scalars.new
        positions.old positions.new
        ends.old ends.new scratch.old scratch.new }
{
    finish(line, kept, pool, scalars, positions, ends, scratch, out)
}
