// A reply with reasons, and its lines of text: `write_why`.
#![tactic(auto)]

ghost use Rattle.std.specs.Prelude.{◌≡◌, ◌*◌, length, get_or, take};
ghost use Rattle.sheet_bytes.specs.Lines.{kept, laid};
ghost use Rattle.sheet_texts.specs.Texts.{written, amount};
ghost use Rattle.why_texts.specs.Texts.{why, bytes_in, token_line, token_lines, tokens_in, cut_lines, why_text};

use cells::wide;
use newmm_reason_rules::Reason;
use sheet_bytes::{front, keep};
use sheet_texts::{Reply, keep_number, write_reply};

// The cell at a place, or 0 where the row has none.
fn cell(row: &[u32], place: usize) -> usize
    ensures { result ≡ get_or row.now place 0 }
{
    if place < row.len() {
        return wide(row[place]);
    }
    0
}

// The bytes of a text from one position to another.
fn between(text: &[u8], from: usize, to: usize) -> &[u8]
    ensures { result.now ≡ bytes_in text.now from to }
{
    if to < from {
        return &text[..0];
    }
    if text.len() < from {
        return &text[..0];
    }
    front(&text[from..], to - from)
}

// Adds why a token ends where it does, as `keep` adds bytes.
fn keep_why(out: &mut [u8], used: usize, end: usize, reason: u32) -> usize
    ensures value { result ≡ length (kept out.old used (why end reason)) }
    ensures out_after { out.new ≡ laid (kept out.old used (why end reason)) out.old }
{
    match Reason::from_number(reason) {
        Some(Reason::DictionaryWord) => keep(out, used, b"word"),
        Some(Reason::NonThaiRun) => keep(out, used, b"run of letters, digits or blanks"),
        Some(Reason::ToWord) => {
            let n = keep(out, used, b"no word here: skipped to the word at ");
            keep_number(out, n, end)
        }
        Some(Reason::ToNonThai) => {
            let n = keep(out, used, b"no word here: skipped to the run at ");
            keep_number(out, n, end)
        }
        Some(Reason::ToEnd) => keep(out, used, b"no word here: skipped to the end"),
        None => keep(out, used, b"no word here: skipped to the end"),
    }
}

// Adds a token's line.
fn keep_token(
    out: &mut [u8],
    used: usize,
    text: &[u8],
    from: usize,
    to: usize,
    end: usize,
    reason: u32,
) -> usize
    ensures value { result ≡ length (kept out.old used
        (token_line text.now from to (record { end = end; reason = reason }))) }
    ensures out_after { out.new ≡ laid (kept out.old used
        (token_line text.now from to (record { end = end; reason = reason }))) out.old }
{
    let a = keep(out, used, between(text, from, to));
    let b = keep(out, a, b"\t");
    let c = keep_number(out, b, end);
    let d = keep(out, c, b"\t");
    let e = keep_why(out, d, end, reason);
    keep(out, e, b"\n")
}

// The lines of the tokens that a row has as pairs.
fn write_tokens(out: &mut [u8], text: &[u8], positions: &[u32], pairs: &[u32]) -> usize
    ensures value { result ≡ amount (token_lines text.now positions.now 0
        (tokens_in pairs.now)) out.old }
    ensures out_after { out.new ≡ written (token_lines text.now positions.now 0
        (tokens_in pairs.now)) out.old }
{
    let mut used = 0;
    let mut from = 0;
    let mut i = 0;
    while i + 1 < pairs.len() {
        let end = wide(pairs[i]);
        let reason = pairs[i + 1];
        let to = cell(positions, end);
        used = keep_token(out, used, text, from, to, end, reason);
        from = to;
        i += 2;
    }
    used
}

// The first n pairs of a row, or all of it where there are fewer.
fn first_pairs(row: &[u32], n: usize) -> &[u32]
    ensures { result.now ≡ take (2 * n) row.now }
{
    if row.len() / 2 < n {
        return row;
    }
    &row[..2 * n]
}

// The lines of a cut with n tokens.
fn write_cut(out: &mut [u8], text: &[u8], positions: &[u32], pairs: &[u32], n: usize) -> usize
    ensures value { result ≡ amount (cut_lines text.now positions.now pairs.now n)
        out.old }
    ensures out_after { out.new ≡
        written (cut_lines text.now positions.now pairs.now n) out.old }
{
    if n == 0 {
        return keep(out, 0, b"\n");
    }
    write_tokens(out, text, positions, first_pairs(pairs, n))
}

// Writes the reply to a line with this text to the front of `out`, as far as there is room: of a
// cut a line for each token, whose ends and reasons stand as pairs at the front of their row; any
// other as `write_reply`. Answers how many bytes that is.
pub fn write_why(
    reply: Reply,
    text: &[u8],
    positions: &[u32],
    pairs: &[u32],
    out: &mut [u8],
) -> usize
    ensures value { result ≡ amount
        (why_text reply text.now positions.now pairs.now) out.old }
    ensures out_after { out.new ≡ written
        (why_text reply text.now positions.now pairs.now) out.old }
{
    match reply {
        Reply::Unknown => write_reply(reply, pairs, out),
        Reply::Report(_) => write_reply(reply, pairs, out),
        Reply::Ends(n) => write_cut(out, text, positions, pairs, n),
        Reply::Refused(_) => write_reply(reply, pairs, out),
    }
}
