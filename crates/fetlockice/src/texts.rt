// Bytes, scalars, clusters and who won them.
ghost use Rattle.host_telling.specs.Told.{told};
ghost use Rattle.host_texts.specs.Calls.{DecodeTold, told_end, EndTold, ClustersTold};
ghost use Rattle.host_winners.specs.Calls.{WinnersTold};

// The scalars of UTF-8 bytes, at the front of out, and the byte position of each and of the end, at
// the front of positions; accepted with the number of scalars. Refusals 1, 2, 6.
pub fn fetlockice_decode(
    bytes: &[u8],
    out: &mut [u32],
    positions: &mut [u32],
    count: &mut usize,
    detail: &mut usize,
) -> u32
    ensures { DecodeTold bytes.now out.old positions.old
        (told result count.new detail.new) out.new positions.new }
{
    host_texts::decode(bytes, out, positions, count, detail)
}

// An end in bytes, of a text of n characters with that position row: found 1 and its place, or 0
// and 0 where the end has none. Never refused.
pub fn fetlockice_end_in_bytes(
    positions: &[u32],
    n: usize,
    end: usize,
    found: &mut usize,
    at: &mut usize,
) -> u32
    ensures { EndTold positions.now n end
        (told_end result found.new at.new) }
{
    host_texts::end_in_bytes(positions, n, end, found, at)
}

// The ends of a text's clusters, in characters, at the front of out; accepted with their number.
// Refusals 2, 3, 6.
pub fn fetlockice_clusters(
    text: &[u32],
    out: &mut [u32],
    count: &mut usize,
    detail: &mut usize,
) -> u32
    ensures { ClustersTold text.now out.old
        (told result count.new detail.new) out.new }
{
    host_texts::clusters(text, out, count, detail)
}

// The ends of a text's clusters, in characters, at the front of ends, and the numbers of the
// alternatives that won them at the front of winners; accepted with their number. Refusals 2, 3, 6.
pub fn fetlockice_winners(
    text: &[u32],
    ends: &mut [u32],
    winners: &mut [u32],
    count: &mut usize,
    detail: &mut usize,
) -> u32
    ensures { WinnersTold text.now ends.old winners.old
        (told result count.new detail.new) ends.new winners.new }
{
    host_winners::winners(text, ends, winners, count, detail)
}
