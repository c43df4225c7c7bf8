// What a line asks, and the reply to it: `answer_line`.
#![tactic(auto)]

ghost use Rattle.std.specs.Prelude.{◌≡◌, length};
ghost use Rattle.refusal.specs.Answers.{answer, output};
ghost use Rattle.utf8.specs.Decoding.{scalars_of, room_in, decoded};
ghost use Rattle.utf8.specs.Positions.{positions_of};
ghost use Rattle.trie_pool.specs.Meaning.{meaning};
ghost use Rattle.trie_check.specs.Refusals.{held};
ghost use Rattle.trie_char_answers.specs.Answers.{added, removed};
ghost use Rattle.trie_char_answers.specs.Changes.{After};
ghost use Rattle.newmm_answers.specs.Answers.{cut_of, first_causes, cleared};
ghost use Rattle.sheet_replies.specs.Replies.{asked as asked_of, next, add_text, remove_text, cut_text};
ghost use Rattle.sheet_replies.specs.Replies.{reported as reported_of, ended as ended_of, ended_by, text_of, reply_of};
ghost use Rattle.sheet_replies.specs.Replies.{RowsAfter};

use newmm_rules::{Ends, Mode};
use refusal::Refusal;
use sheet_texts::Reply;

// The most bytes that a line may have, without its line feed.
pub const MAX_LINE: usize = 1024;

// What a line asks.
#[derive(Clone, Copy)]
pub enum Asked {
    // An empty or longer line, or another first byte.
    Nothing,
    Add,
    Remove,
    Cut(Mode),
}

// `+` adds, `-` removes, `=` cuts plainly, `~` safely.
pub fn asks(line: &[u8]) -> Asked
    ensures { result ≡ asked_of line.now }
{
    if line.is_empty() || MAX_LINE < line.len() {
        return Asked::Nothing;
    }
    match line[0] {
        b'+' => Asked::Add,
        b'-' => Asked::Remove,
        b'=' => Asked::Cut(Mode::Plain),
        b'~' => Asked::Cut(Mode::Safe),
        _ => Asked::Nothing,
    }
}

fn reported(answer: Result<usize, Refusal>) -> Reply
    ensures { result ≡ reported_of answer }
{
    match answer {
        Ok(n) => Reply::Report(n),
        Err(r) => Reply::Refused(r),
    }
}

pub fn ended(answer: Result<Ends, Refusal>) -> Reply
    ensures { result ≡ ended_by answer }
{
    match answer {
        Ok(Ends { ends: n, edges: _ }) => Reply::Ends(n),
        Err(r) => Reply::Refused(r),
    }
}

fn add(text: &[u8], pool: &mut [u32], scalars: &mut [u32], positions: &mut [u32]) -> Reply
    ensures value { result ≡ reported_of
        (add_text text.now pool.old (room_in scalars.old positions.old)) }
    ensures after { After
        (add_text text.now pool.old (room_in scalars.old positions.old))
        pool.old pool.new
        (added (scalars_of text.now) 0 pool.old) }
    ensures scalars_after { scalars.new ≡
        output (decoded text.now (room_in scalars.old positions.old))
        (scalars_of text.now) scalars.old }
    ensures positions_after { positions.new ≡
        output (decoded text.now (room_in scalars.old positions.old))
        (positions_of text.now) positions.old }
{
    let decoded = utf8::decode(text, scalars, positions);
    match decoded {
        Err(r) => Reply::Refused(r),
        Ok(n) => reported(trie_char::add(pool, &scalars[..n])),
    }
}

fn remove(text: &[u8], pool: &mut [u32], scalars: &mut [u32], positions: &mut [u32]) -> Reply
    ensures value { result ≡ reported_of
        (remove_text text.now pool.old
        (room_in scalars.old positions.old)) }
    ensures after { After
        (remove_text text.now pool.old (room_in scalars.old positions.old))
        pool.old pool.new
        (removed (scalars_of text.now) pool.old) }
    ensures scalars_after { scalars.new ≡
        output (decoded text.now (room_in scalars.old positions.old))
        (scalars_of text.now) scalars.old }
    ensures positions_after { positions.new ≡
        output (decoded text.now (room_in scalars.old positions.old))
        (positions_of text.now) positions.old }
{
    let decoded = utf8::decode(text, scalars, positions);
    match decoded {
        Err(r) => Reply::Refused(r),
        Ok(n) => reported(trie_char::remove(pool, &scalars[..n])),
    }
}

fn cut(
    text: &[u8],
    pool: &[u32],
    scalars: &mut [u32],
    positions: &mut [u32],
    ends: &mut [u32],
    scratch: &mut [u32],
    mode: Mode,
) -> Reply
    ensures value { result ≡ ended_of (cut_text mode text.now pool.now
        (room_in scalars.old positions.old)
        (length scratch.old) (length ends.old)) }
    ensures scalars_after { scalars.new ≡
        output (decoded text.now (room_in scalars.old positions.old))
        (scalars_of text.now) scalars.old }
    ensures positions_after { positions.new ≡
        output (decoded text.now (room_in scalars.old positions.old))
        (positions_of text.now) positions.old }
    ensures ends_after { ends.new ≡ output
        (cut_text mode text.now pool.now (room_in scalars.old positions.old)
        (length scratch.old) (length ends.old))
        (cut_of mode (held (meaning pool.now)) (scalars_of text.now)).ends ends.old }
    ensures scratch_after { scratch.new ≡ cleared
        (next (decoded text.now (room_in scalars.old positions.old))
        (answer (first_causes (scalars_of text.now) (meaning pool.now)
        (length scratch.old)) 0))
        scratch.old }
{
    let decoded = utf8::decode(text, scalars, positions);
    match decoded {
        Err(r) => Reply::Refused(r),
        Ok(n) => ended(newmm::cut(&scalars[..n], pool, ends, scratch, mode)),
    }
}

// The reply to a line, of which the bytes behind the first are the text. An addition or a removal
// changes the pool, a cut leaves its ends at the front of `ends`. Each leaves the text's scalars
// and their positions at the front of their rows.
pub fn answer_line(
    line: &[u8],
    pool: &mut [u32],
    scalars: &mut [u32],
    positions: &mut [u32],
    ends: &mut [u32],
    scratch: &mut [u32],
) -> Reply
    ensures value { result ≡ reply_of line.now pool.old
        (room_in scalars.old positions.old)
        (length scratch.old) (length ends.old) }
    ensures rows_after { RowsAfter (asked_of line.now) (text_of line.now)
        pool.old pool.new scalars.old scalars.new
        positions.old positions.new
        ends.old ends.new scratch.old scratch.new }
{
    let asked = asks(line);
    match asked {
        Asked::Nothing => Reply::Unknown,
        Asked::Add => add(&line[1..], pool, scalars, positions),
        Asked::Remove => remove(&line[1..], pool, scalars, positions),
        Asked::Cut(mode) => cut(&line[1..], pool, scalars, positions, ends, scratch, mode),
    }
}
