// UTF-8 to scalars and their byte positions: one pass that checks and counts, and one that writes;
// ends in bytes.
#![tactic(auto)]

ghost use Rattle.std.specs.Prelude.{◌≡◌, true, ◌<◌, ◌≤◌, length, drop, ◌++◌};
ghost use Rattle.refusal.specs.Answers.{output};
ghost use Rattle.utf8.specs.Decoding.{run_all, scalars_of, room_in, decoded};
ghost use Rattle.utf8.specs.Positions.{positions_of, end_in_bytes};
ghost use Rattle.utf8.specs.inner.Passes.{counted, Read};

use refusal::{MAX_SCALARS, Refusal};
use utf8_sequences::{next_size, piece_at, piece_of_e0, thai_at, thai_of_four};

// How far the first pass has come: a place, and how many scalars stand before it.
#[derive(Clone, Copy, Debug, PartialEq, Eq)]
pub struct Reached {
    pub at: usize,
    pub scalars: usize,
}

// On over one Thai character, if one follows.
fn over_one_thai(s: &[u8], from: usize, before: usize) -> Reached
    requires { Read s.now from before }
    ensures { Read s.now result.at result.scalars × (from ≤ result.at) }
{
    if s.len() - from < 3 || !thai_at(s, from) {
        return Reached {
            at: from,
            scalars: before,
        };
    }
    Reached {
        at: from + 3,
        scalars: before + 1,
    }
}

// On over the Thai characters that follow. The last of the text has no byte behind it, and is asked
// for by itself.
fn over_thai(s: &[u8], from: usize, before: usize) -> Reached
    requires { Read s.now from before }
    ensures { Read s.now result.at result.scalars × (from ≤ result.at) }
{
    let mut at = from;
    let mut n = before;
    if s.len() < 4 {
        return over_one_thai(s, from, before);
    }
    let end = s.len() - 3;
    // Kept: (3) as in count_by_table.
    while at < end {
        if !thai_of_four(s, at) {
            return Reached { at, scalars: n };
        }
        at += 3;
        n += 1;
    }
    over_one_thai(s, at, n)
}

// The first pass from a place on, with the table.
fn count_by_table(s: &[u8], from: usize, before: usize) -> Result<usize, Refusal>
    requires { Read s.now from before }
    ensures { result ≡ counted (run_all s.now) }
{
    let mut at = from;
    let mut n = before;
    // Kept: (3) a sequence tells where the next one starts, so no iterator gives the places.
    while at < s.len() {
        let size = next_size(s, at);
        if size == 0 {
            return Err(Refusal::IllFormed(at));
        }
        let r = over_thai(s, at + size, n + 1);
        at = r.at;
        n = r.scalars;
    }
    Ok(n)
}

// The first pass: how many scalars the bytes are. Refusal 1. The table is asked only from a byte on
// that is neither ASCII nor Thai.
fn count(s: &[u8]) -> Result<usize, Refusal>
    ensures { result ≡ counted (run_all s.now) }
{
    let mut at = 0;
    let mut n = 0;
    // Kept: (3) as in count_by_table.
    while at < s.len() {
        let r = over_thai(s, at, n);
        if s.len() <= r.at {
            return Ok(r.scalars);
        }
        if 0x80 <= s[r.at] {
            return count_by_table(s, r.at, r.scalars);
        }
        at = r.at + 1;
        n = r.scalars + 1;
    }
    Ok(n)
}

// The second pass, over well-formed bytes of a text that is not too long, into room that is enough.
fn fill(s: &[u8], out: &mut [u32], positions: &mut [u32])
    requires s_value { (run_all s.now).whole ≡ true }
    requires s_len_bound { length (scalars_of s.now) ≤ 65535 }
    requires s_in_bounds { length (scalars_of s.now) ≤ length out.old }
    requires s_in_bounds_2 { length (scalars_of s.now) < length positions.old }
    ensures out_after { out.new ≡
        scalars_of s.now ++ drop (length (scalars_of s.now)) out.old }
    ensures positions_after { positions.new ≡
        positions_of s.now ++ drop (length (positions_of s.now)) positions.old }
{
    let mut at = 0;
    let mut n = 0;
    // Kept: (3) as in count_by_table.
    while at < s.len() {
        positions[n] = at as u32;
        if s[at] == 0xE0 {
            let q = piece_of_e0(s, at);
            out[n] = q.scalar;
            at += q.size;
            n += 1;
            continue;
        }
        let p = piece_at(s, at);
        out[n] = p.scalar;
        at += p.size;
        n += 1;
    }
    positions[n] = s.len() as u32;
}

// Writes the scalars of the bytes to the front of `out`, the byte position of each and of the end
// to the front of `positions`, and answers how many scalars there are. Refusals 1, 2, 6.
pub fn decode(bytes: &[u8], out: &mut [u32], positions: &mut [u32]) -> Result<usize, Refusal>
    ensures value { result ≡ decoded bytes.now (room_in out.old positions.old) }
    ensures out_after { out.new ≡ output result (scalars_of bytes.now) out.old }
    ensures positions_after { positions.new ≡ output result (positions_of bytes.now) positions.old }
{
    let scalars = count(bytes)?;
    if MAX_SCALARS < scalars {
        return Err(Refusal::TooManyScalars(scalars));
    }
    if out.len() < scalars {
        return Err(Refusal::OutputTooShort(scalars));
    }
    let places = scalars + 1;
    if positions.len() < places {
        return Err(Refusal::OutputTooShort(places));
    }
    fill(bytes, out, positions);
    Ok(scalars)
}

// Kept: (6) a row may be longer than a text of n characters, and C lends it whole.
//
// An end of a text of n characters in bytes: the cell of its position row at that end. An end over
// n has none, nor has one that the row has no cell for.
pub fn end_in_bytes(positions: &[u32], n: usize, end: usize) -> Option<usize>
    ensures { result ≡ end_in_bytes positions.now n end }
{
    if n < end {
        return None;
    }
    positions.get(end).map(|place| *place as usize)
}
