// Input of any length, part by part, with rows of any length.
//   feed    takes bytes up to the first line feed, and writes that line's reply
//   finish  writes the reply of a last line without a line feed
#![tactic(auto)]

ghost use Rattle.std.specs.Prelude.{◌≡◌, cond, eqb, length, take};
ghost use Rattle.utf8.specs.Decoding.{room_in};
ghost use Rattle.sheet_bytes.specs.Lines.{line_end, laid};
ghost use Rattle.sheet_replies.specs.Replies.{asked, text_of, RowsAfter};
ghost use Rattle.sheet_texts.specs.Texts.{written, amount};
ghost use Rattle.sheet_input.specs.Feeding.{line_with, has_end, asked_if, told as told_of, fed_with};

use sheet_bytes::{front, keep, line_end};
use sheet_replies::answer_line;
use sheet_texts::write_reply;

// What became of bytes that were fed: how many were taken, how many of the line that goes on are
// kept, and how many bytes of reply were written.
#[derive(Clone, Copy)]
pub struct Fed {
    pub taken: usize,
    pub kept: usize,
    pub written: usize,
}

fn told(
    line: &[u8],
    pool: &mut [u32],
    scalars: &mut [u32],
    positions: &mut [u32],
    ends: &mut [u32],
    scratch: &mut [u32],
    out: &mut [u8],
) -> usize
    ensures value { result ≡ amount
        (told_of line.now pool.old (room_in scalars.old positions.old)
        (length scratch.old) ends.old) out.old }
    ensures out_after { out.new ≡ written
        (told_of line.now pool.old (room_in scalars.old positions.old)
        (length scratch.old) ends.old) out.old }
    ensures rows_after { RowsAfter (asked line.now) (text_of line.now)
        pool.old pool.new scalars.old scalars.new
        positions.old positions.new
        ends.old ends.new scratch.old scratch.new }
{
    let reply = answer_line(line, pool, scalars, positions, ends, scratch);
    write_reply(reply, ends, out)
}

// Takes the bytes up to the first line feed, behind the `kept` bytes of the line that `line` holds,
// and writes the reply of the line that ends there to the front of `out`. Without a line feed all
// bytes are taken, and kept as far as they fit.
pub fn feed(
    bytes: &[u8],
    line: &mut [u8],
    kept: usize,
    pool: &mut [u32],
    scalars: &mut [u32],
    positions: &mut [u32],
    ends: &mut [u32],
    scratch: &mut [u32],
    out: &mut [u8],
) -> Fed
    ensures value { result ≡ fed_with (has_end bytes.now) (line_end bytes.now)
        (length (line_with bytes.now line.old kept))
        (amount (told_of (line_with bytes.now line.old kept) pool.old
        (room_in scalars.old positions.old)
        (length scratch.old) ends.old) out.old) }
    ensures line_after { line.new ≡
        laid (line_with bytes.now line.old kept) line.old }
    ensures out_after { out.new ≡ cond (has_end bytes.now)
        (written (told_of (line_with bytes.now line.old kept) pool.old
        (room_in scalars.old positions.old)
        (length scratch.old) ends.old) out.old)
        out.old }
    ensures rows_after { RowsAfter
        (asked_if (has_end bytes.now) (line_with bytes.now line.old kept))
        (text_of (line_with bytes.now line.old kept))
        pool.old pool.new scalars.old scalars.new
        positions.old positions.new
        ends.old ends.new scratch.old scratch.new }
{
    let end = line_end(bytes);
    let n = keep(line, kept, &bytes[..end]);
    if end == bytes.len() {
        return Fed {
            taken: end,
            kept: n,
            written: 0,
        };
    }
    let written = told(front(line, n), pool, scalars, positions, ends, scratch, out);
    Fed {
        taken: end + 1,
        kept: 0,
        written,
    }
}

// Writes the reply of the line whose bytes are kept, where there are any: a last line without a
// line feed.
pub fn finish(
    line: &[u8],
    kept: usize,
    pool: &mut [u32],
    scalars: &mut [u32],
    positions: &mut [u32],
    ends: &mut [u32],
    scratch: &mut [u32],
    out: &mut [u8],
) -> usize
    ensures value { result ≡ cond (eqb kept 0) 0 (amount (told_of (take kept line.now) pool.old
        (room_in scalars.old positions.old)
        (length scratch.old) ends.old) out.old) }
    ensures out_after { out.new ≡ cond (eqb kept 0) out.old
        (written (told_of (take kept line.now) pool.old
        (room_in scalars.old positions.old)
        (length scratch.old) ends.old) out.old) }
    ensures rows_after { RowsAfter (asked (take kept line.now)) (text_of (take kept line.now))
        pool.old pool.new scalars.old scalars.new
        positions.old positions.new
        ends.old ends.new scratch.old scratch.new }
{
    if kept == 0 {
        return 0;
    }
    told(
        front(line, kept),
        pool,
        scalars,
        positions,
        ends,
        scratch,
        out,
    )
}
