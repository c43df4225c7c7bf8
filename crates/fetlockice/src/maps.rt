// Maps of breaks.
ghost use Rattle.host_telling.specs.Told.{told};
ghost use Rattle.host_maps.specs.Calls.{told_next, MapTold, CountTold, NextTold};

// Writes the map of the ends of a text of n characters; accepted with the cells that it takes.
// Refusals 2, 6, 10.
pub fn fetlockice_break_map(
    n: usize,
    ends: &[u32],
    map: &mut [u64],
    count: &mut usize,
    detail: &mut usize,
) -> u32
    ensures { MapTold n ends.now map.old
        (told result count.new detail.new) map.new }
{
    host_maps::write_map(n, ends, map, count, detail)
}

// The number of breaks up to and including a position. Refusals 2, 6, 10, 11.
pub fn fetlockice_breaks_up_to(
    n: usize,
    map: &[u64],
    position: usize,
    count: &mut usize,
    detail: &mut usize,
) -> u32
    ensures { CountTold n map.now position (told result count.new detail.new) }
{
    host_maps::breaks_up_to(n, map, position, count, detail)
}

// The first break above a position: 1 and where it is, or 0. Refusals 2, 6, 10, 11.
pub fn fetlockice_next_break(
    n: usize,
    map: &[u64],
    position: usize,
    found: &mut usize,
    place: &mut usize,
    detail: &mut usize,
) -> u32
    ensures { NextTold n map.now position
        (told_next result found.new place.new detail.new) }
{
    host_maps::next_break(n, map, position, found, place, detail)
}
