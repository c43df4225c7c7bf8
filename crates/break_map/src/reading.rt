// Asking a map. Cells after those that it takes are ignored.
ghost use Rattle.std.specs.Prelude.{◌≡◌};
ghost use Rattle.refusal.specs.Answers.{answer};
ghost use Rattle.break_map_rules.specs.Maps.{cells_for};
ghost use Rattle.break_map_rules.specs.Answers.{read_causes, count_answer, next_answer};

use crate::sizes::check_size;
use break_map_cells::{BITS, bits_from, count_up_to, first_from, lowest};
use refusal::Refusal;

// Refusals 2, 6, 10 and 11; accepted with the cells that the map takes.
fn check_read(n: usize, map: &[u64], position: usize) -> Result<usize, Refusal>
    ensures { result ≡ answer (read_causes n map.now position) (cells_for n) }
{
    let used = check_size(n, map.len())?;
    if n < position {
        return Err(Refusal::WrongPosition(position));
    }
    let above = n + 1;
    if above == BITS * used {
        return Ok(used);
    }
    let bits = bits_from(map, above);
    if bits != 0 {
        return Err(Refusal::BitAboveEnd(above + lowest(bits)));
    }
    Ok(used)
}

// The number of breaks up to and including a position. Refusals 2, 6, 10, 11.
pub fn breaks_up_to(n: usize, map: &[u64], position: usize) -> Result<usize, Refusal>
    ensures { result ≡ count_answer n map.now position }
{
    check_read(n, map, position)?;
    Ok(count_up_to(map, position))
}

// The first break above a position, up to n. Refusals 2, 6, 10, 11.
pub fn next_break(n: usize, map: &[u64], position: usize) -> Result<Option<usize>, Refusal>
    ensures { result ≡ next_answer n map.now position }
{
    let used = check_read(n, map, position)?;
    Ok(first_from(&map[..used], position + 1))
}
