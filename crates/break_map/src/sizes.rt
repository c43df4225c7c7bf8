// The refusals that all three calls have.
ghost use Rattle.std.specs.Prelude.{◌≡◌};
ghost use Rattle.refusal.specs.Answers.{answer};
ghost use Rattle.break_map_rules.specs.Maps.{cells_for};
ghost use Rattle.break_map_rules.specs.Answers.{size_causes};

use break_map_cells::BITS;
use refusal::{MAX_SCALARS, Refusal};

// Refusals 2 and 6, by the cells of the row; accepted with the cells that the map takes.
pub fn check_size(n: usize, room: usize) -> Result<usize, Refusal>
    ensures { result ≡ answer (size_causes n room) (cells_for n) }
{
    if MAX_SCALARS < n {
        return Err(Refusal::TooManyScalars(n));
    }
    let needed = n / BITS + 1;
    if room < needed {
        return Err(Refusal::OutputTooShort(needed));
    }
    Ok(needed)
}
