// Maps of breaks, as hosts are told of them.
#![tactic(auto)]

ghost use Rattle.std.specs.Prelude.{◌≡◌};
ghost use Rattle.host_telling.specs.Told.{told};
ghost use Rattle.host_maps.specs.Calls.{told_next, tells_next, MapTold, CountTold, NextTold};

use host_telling::tell;
use refusal::Refusal;

// Writes the map of the ends of a text of n characters; accepted with the cells that it takes.
// Refusals 2, 6, 10.
pub fn write_map(
    n: usize,
    ends: &[u32],
    map: &mut [u64],
    count: &mut usize,
    detail: &mut usize,
) -> u32
    ensures { MapTold n ends.now map.old
        (told result count.new detail.new) map.new }
{
    let written = break_map::break_map(n, ends, map);
    tell(written, count, detail)
}

// The number of breaks up to and including a position. Refusals 2, 6, 10, 11.
pub fn breaks_up_to(
    n: usize,
    map: &[u64],
    position: usize,
    count: &mut usize,
    detail: &mut usize,
) -> u32
    ensures { CountTold n map.now position (told result count.new detail.new) }
{
    let counted = break_map::breaks_up_to(n, map, position);
    tell(counted, count, detail)
}

// Tells the answer of a search for the next break.
fn tell_next(
    a: Result<Option<usize>, Refusal>,
    found: &mut usize,
    place: &mut usize,
    detail: &mut usize,
) -> u32
    ensures { told_next result found.new place.new detail.new ≡ tells_next a }
{
    *found = usize::from(matches!(a, Ok(Some(_))));
    tell(a.map(|next| next.unwrap_or(0)), place, detail)
}

// The first break above a position: 1 and where it is, or 0. Refusals 2, 6, 10, 11.
pub fn next_break(
    n: usize,
    map: &[u64],
    position: usize,
    found: &mut usize,
    place: &mut usize,
    detail: &mut usize,
) -> u32
    ensures { NextTold n map.now position
        (told_next result found.new place.new detail.new) }
{
    let next = break_map::next_break(n, map, position);
    tell_next(next, found, place, detail)
}
