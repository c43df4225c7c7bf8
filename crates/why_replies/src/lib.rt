// A line, with `#` for the profile "sheet".
//   cutting_in    how its text is cut
//   text_in       its text
//   explain_line  the reply to it with reasons
#![tactic(auto)]

ghost use Rattle.std.specs.Prelude.{◌≡◌, ◌/◌, length};
ghost use Rattle.refusal.specs.Answers.{answer as answer_of, output};
ghost use Rattle.utf8.specs.Decoding.{scalars_of, room_in, decoded};
ghost use Rattle.utf8.specs.Positions.{positions_of};
ghost use Rattle.trie_pool.specs.Meaning.{meaning};
ghost use Rattle.trie_check.specs.Refusals.{held};
ghost use Rattle.newmm_answers.specs.Answers.{first_causes, cleared};
ghost use Rattle.newmm_reasons_answers.specs.Told.{told_of};
ghost use Rattle.newmm_reasons_answers.specs.Answers.{pairs as pairs_of};
ghost use Rattle.sheet_replies.specs.Replies.{next, cut_text, ended as ended_of, text_of, reply_to};
ghost use Rattle.sheet_texts.specs.Texts.{written, amount};
ghost use Rattle.why_replies.specs.Replies.{asks_sheet, asked, cutting_by, RowsAfter, explained};

use newmm_reasons::cut_reasons;
use newmm_rules::Mode;
use refusal::Refusal;
use sheet_replies::{Asked, MAX_LINE, answer_line, ended};
use sheet_texts::Reply;
use why_texts::write_why;

// The line starts with `#`.
fn asks_sheet(line: &[u8]) -> bool
    ensures { result ≡ asks_sheet line.now }
{
    if line.is_empty() || MAX_LINE < line.len() {
        return false;
    }
    line[0] == b'#'
}

// How the text is cut by what the line asks; `None` where it isn't.
pub fn cutting_in(line: &[u8]) -> Option<Mode>
    ensures { result ≡ cutting_by (asked line.now) }
{
    if asks_sheet(line) {
        return Some(Mode::Sheet);
    }
    let other = sheet_replies::asks(line);
    match other {
        Asked::Nothing => None,
        Asked::Add => None,
        Asked::Remove => None,
        Asked::Cut(mode) => Some(mode),
    }
}

// The line without its first byte.
pub fn text_in(line: &[u8]) -> &[u8]
    ensures { result.now ≡ text_of line.now }
{
    if line.is_empty() {
        return line;
    }
    &line[1..]
}

fn cut(
    text: &[u8],
    pool: &[u32],
    scalars: &mut [u32],
    positions: &mut [u32],
    pairs: &mut [u32],
    scratch: &mut [u32],
    mode: Mode,
) -> Reply
    ensures value { result ≡ ended_of (cut_text mode text.now pool.now
        (room_in scalars.old positions.old)
        (length scratch.old) (length pairs.old / 2)) }
    ensures scalars_after { scalars.new ≡
        output (decoded text.now (room_in scalars.old positions.old))
        (scalars_of text.now) scalars.old }
    ensures positions_after { positions.new ≡
        output (decoded text.now (room_in scalars.old positions.old))
        (positions_of text.now) positions.old }
    ensures pairs_after { pairs.new ≡ output
        (cut_text mode text.now pool.now (room_in scalars.old positions.old)
        (length scratch.old) (length pairs.old / 2))
        (pairs_of (told_of mode (held (meaning pool.now)) (scalars_of text.now)))
        pairs.old }
    ensures scratch_after { scratch.new ≡ cleared
        (next (decoded text.now (room_in scalars.old positions.old))
        (answer_of (first_causes (scalars_of text.now) (meaning pool.now)
        (length scratch.old)) 0))
        scratch.old }
{
    let decoded = utf8::decode(text, scalars, positions);
    match decoded {
        Err(r) => Reply::Refused(r),
        Ok(n) => ended(cut_reasons(&scalars[..n], pool, pairs, scratch, mode)),
    }
}

fn reply_to(
    line: &[u8],
    pool: &mut [u32],
    scalars: &mut [u32],
    positions: &mut [u32],
    pairs: &mut [u32],
    scratch: &mut [u32],
) -> Reply
    ensures value { result ≡ reply_to (asked line.now) (text_of line.now) pool.old
        (room_in scalars.old positions.old)
        (length scratch.old) (length pairs.old / 2) }
    ensures rows_after { RowsAfter (asked line.now) (text_of line.now)
        pool.old pool.new scalars.old scalars.new
        positions.old positions.new
        pairs.old pairs.new scratch.old scratch.new }
{
    let cutting = cutting_in(line);
    match cutting {
        None => answer_line(line, pool, scalars, positions, pairs, scratch),
        Some(mode) => cut(
            text_in(line),
            pool,
            scalars,
            positions,
            pairs,
            scratch,
            mode,
        ),
    }
}

// Writes the reply to a line, of which the bytes behind the first are the text, to the front of
// `out`, as far as there is room: for a cut one line a token, with its text, its end and why.
// Answers how many bytes that is. The rows become what those of a line of the line program become;
// the pairs of a cut stand at the front of theirs.
pub fn explain_line(
    line: &[u8],
    pool: &mut [u32],
    scalars: &mut [u32],
    positions: &mut [u32],
    pairs: &mut [u32],
    scratch: &mut [u32],
    out: &mut [u8],
) -> usize
    ensures value { result ≡ amount (explained line.now pool.old scalars.old
        positions.old pairs.old (length scratch.old)) out.old }
    ensures out_after { out.new ≡ written (explained line.now pool.old
        scalars.old positions.old pairs.old (length scratch.old))
        out.old }
    ensures rows_after { RowsAfter (asked line.now) (text_of line.now)
        pool.old pool.new scalars.old scalars.new
        positions.old positions.new
        pairs.old pairs.new scratch.old scratch.new }
{
    let reply = reply_to(line, pool, scalars, positions, pairs, scratch);
    write_why(reply, text_in(line), positions, pairs, out)
}
