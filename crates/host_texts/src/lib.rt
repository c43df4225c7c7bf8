// Bytes, scalars and clusters, as hosts are told them.
#![tactic(auto)]

ghost use Rattle.host_telling.specs.Told.{told};
ghost use Rattle.host_texts.specs.Calls.{DecodeTold, told_end, EndTold, ClustersTold};

use host_telling::tell;
use tcc::tcc_pos;

// The scalars of UTF-8 bytes, at the front of out, and the byte position of each and of the end, at
// the front of positions; accepted with the number of scalars. Refusals 1, 2, 6.
pub fn decode(
    bytes: &[u8],
    out: &mut [u32],
    positions: &mut [u32],
    count: &mut usize,
    detail: &mut usize,
) -> u32
    ensures { DecodeTold bytes.now out.old positions.old
        (told result count.new detail.new) out.new positions.new }
{
    let scalars = utf8::decode(bytes, out, positions);
    tell(scalars, count, detail)
}

// An end in bytes, of a text of n characters with that position row: found 1 and its place, or 0
// and 0 where the end has none. Never refused.
pub fn end_in_bytes(
    positions: &[u32],
    n: usize,
    end: usize,
    found: &mut usize,
    at: &mut usize,
) -> u32
    ensures { EndTold positions.now n end
        (told_end result found.new at.new) }
{
    let place = utf8::end_in_bytes(positions, n, end);
    *found = usize::from(place.is_some());
    *at = place.unwrap_or(0);
    0
}

// The ends of a text's clusters, in characters, at the front of out; accepted with their number.
// Refusals 2, 3, 6.
pub fn clusters(text: &[u32], out: &mut [u32], count: &mut usize, detail: &mut usize) -> u32
    ensures { ClustersTold text.now out.old
        (told result count.new detail.new) out.new }
{
    let ends = tcc_pos(text, out);
    tell(ends, count, detail)
}
