// Which cells are Unicode scalar values, and which rows of cells are texts.
#![tactic(auto)]

ghost use Rattle.std.specs.Prelude.{◌≡◌, ℕ, ◌≤◌, get_or};
ghost use Rattle.char_string_scalars.specs.Scalars.{is_scalar, first_non_scalar, checked};

use refusal::{MAX_SCALARS, Refusal};

#[tactic(auto, unfolding(crate::specs::Scalars::is_scalar))]
pub fn is_scalar(x: u32) -> bool
    ensures { result ≡ is_scalar x }
{
    matches!(x, 0..=0xD7FF | 0xE000..=0x10FFFF)
}

// The highest cell, 0 where there is none.
fn highest(cells: &[u32]) -> u32
    ensures { (a : ℕ) → get_or cells.now a 0 ≤ result }
{
    let mut most = 0;
    for x in cells {
        if most < *x {
            most = *x;
        }
    }
    most
}

// The index of the first cell that isn't a scalar value, or the length where all are.
pub fn first_non_scalar(cells: &[u32]) -> usize
    ensures { result ≡ first_non_scalar cells.now }
{
    if highest(cells) < 0xD800 {
        return cells.len();
    }
    cells.iter().take_while(|x| is_scalar(**x)).count()
}

// Refusals 2 and 3, which every operation on a text gives first; accepted with the text's length.
pub fn check_text(text: &[u32]) -> Result<usize, Refusal>
    ensures { result ≡ checked text.now }
{
    let n = text.len();
    if MAX_SCALARS < n {
        return Err(Refusal::TooManyScalars(n));
    }
    let bad = first_non_scalar(text);
    if bad < n {
        return Err(Refusal::NotAScalar(bad));
    }
    Ok(n)
}
