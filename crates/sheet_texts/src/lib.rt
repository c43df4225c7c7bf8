// A reply, and its line of text: `write_reply`.
#![tactic(auto)]

ghost use Rattle.std.specs.Prelude.{◌≡◌, [], length, take};
ghost use Rattle.sheet_bytes.specs.Lines.{kept, laid};
ghost use Rattle.sheet_texts.specs.Texts.{decimal, spaced, text_of_reply, line_of, written, amount};

use cells::wide;
use refusal::Refusal;
use sheet_bytes::keep;

// What is told for a line.
#[derive(Clone, Copy)]
pub enum Reply {
    // The line asks nothing.
    Unknown,
    // 1 if the set of words changed, else 0.
    Report(usize),
    // The number of ends, which stand at the front of their row.
    Ends(usize),
    Refused(Refusal),
}

// Adds a number in decimal, as `keep` adds bytes.
pub fn keep_number(out: &mut [u8], used: usize, n: usize) -> usize
    ensures value { result ≡ length (kept out.old used (decimal n)) }
    ensures out_after { out.new ≡ laid (kept out.old used (decimal n)) out.old }
{
    let mut digits = [0u8; 20];
    let k = io::decimal(n as u64, &mut digits);
    keep(out, used, &digits[..k])
}

// `! number detail`
fn write_refusal(out: &mut [u8], r: Refusal) -> usize
    ensures value { result ≡ amount (text_of_reply (Reply.Refused r) []) out.old }
    ensures out_after { out.new ≡ written (text_of_reply (Reply.Refused r) []) out.old }
{
    let a = keep(out, 0, b"! ");
    let b = keep_number(out, a, r.number() as usize);
    let c = keep(out, b, b" ");
    keep_number(out, c, r.detail())
}

// The numbers of a row with single spaces.
fn write_ends(out: &mut [u8], row: &[u32]) -> usize
    ensures value { result ≡ amount (spaced row.now) out.old }
    ensures out_after { out.new ≡ written (spaced row.now) out.old }
{
    if row.len() == 0 {
        return 0;
    }
    let mut used = keep_number(out, 0, wide(row[0]));
    let mut i = 1;
    while i < row.len() {
        let n = keep(out, used, b" ");
        used = keep_number(out, n, wide(row[i]));
        i += 1;
    }
    used
}

// The first n cells of a row, or all of it where there are fewer.
fn first(row: &[u32], n: usize) -> &[u32]
    ensures { result.now ≡ take n row.now }
{
    if n < row.len() {
        return &row[..n];
    }
    row
}

fn write_text(out: &mut [u8], reply: Reply, ends: &[u32]) -> usize
    ensures value { result ≡ amount (text_of_reply reply ends.now) out.old }
    ensures out_after { out.new ≡ written (text_of_reply reply ends.now) out.old }
{
    match reply {
        Reply::Unknown => keep(out, 0, b"?"),
        Reply::Report(n) => keep_number(out, 0, n),
        Reply::Ends(n) => write_ends(out, first(ends, n)),
        Reply::Refused(r) => write_refusal(out, r),
    }
}

// Writes the reply with its line feed to the front of `out`, as far as there is room. Answers how
// many bytes that is.
pub fn write_reply(reply: Reply, ends: &[u32], out: &mut [u8]) -> usize
    ensures value { result ≡ amount (line_of reply ends.now) out.old }
    ensures out_after { out.new ≡ written (line_of reply ends.now) out.old }
{
    let n = write_text(out, reply, ends);
    keep(out, n, b"\n")
}
