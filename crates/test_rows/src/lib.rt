// Rows that a test lends: full of leftovers before a call, and looked at after it.
//   mode_of(name) -> Option<Mode>    the mode that the field of a line names
//   scratch_cells(text, n, most)     how many scratch cells the field of a line asks for
//   Leftover                         what an earlier call may have left in a cell, for each type
//   smear(row)                       fills a row with what an earlier call may have left
//   expect_leftovers(row, start)     writes a `?` where a cell from `start` on is not that
//   expect_zero(row)                 writes a `?` where a cell isn't zero
//   print_left(row)                  writes whether the cells are as they were lent or all zero
#![tactic(auto)]

ghost use Rattle.std.specs.Prelude.{◌≤◌};

use newmm_answers::scratch_for;
use newmm_rules::Mode;
use test_lines::lent;

// As many scratch cells as a text of n characters needs for `*`, at most `most`.
pub fn scratch_cells(rt: &impl Print, text: &[u8], n: usize, most: usize) -> usize
    ensures { result ≤ most }
{
    if matches!(text, b"*") && n <= 65536 {
        return scratch_for(n).min(most);
    }
    lent(rt, text, most)
}

pub fn mode_of(name: &[u8]) -> Option<Mode> {
    match name {
        b"plain" => Some(Mode::Plain),
        b"safe" => Some(Mode::Safe),
        b"sheet" => Some(Mode::Sheet),
        _ => None,
    }
}

// Cells of a row that is lent.
pub trait Leftover: Copy + PartialEq + Drop {
    // What an earlier call may have left at place k.
    fn leftover(k: usize) -> Self;
}

// Positions, and cells that are no position.
impl Leftover for u32 {
    fn leftover(k: usize) -> u32 {
        if k % 2 == 0 { u32::MAX } else { 3 }
    }
}

impl Leftover for u64 {
    fn leftover(k: usize) -> u64 {
        if k % 2 == 0 { u64::MAX } else { 3 }
    }
}

impl Leftover for u8 {
    fn leftover(_: usize) -> u8 {
        165
    }
}

pub fn smear<T: Leftover>(row: &mut [T]) {
    for (k, cell) in row.iter_mut().enumerate() {
        *cell = T::leftover(k);
    }
}

// Whether each cell from `start` on is what `smear` put there.
fn is_left<T: Leftover>(row: &[T], start: usize) -> bool {
    row.iter()
        .enumerate()
        .skip(start)
        .all(|(k, x)| *x == T::leftover(k))
}

fn is_zero(row: &[u32]) -> bool {
    row.iter().all(|x| *x == 0)
}

// Writes a `?` where a cell from `start` on isn't what `smear` put there.
pub fn expect_leftovers<T: Leftover>(rt: &impl Print, row: &[T], start: usize) {
    if !is_left(row, start) {
        let _ = print!(rt; "?");
    }
}

// Writes a `?` where a cell isn't zero.
pub fn expect_zero(rt: &impl Print, row: &[u32]) {
    if !is_zero(row) {
        let _ = print!(rt; "?");
    }
}

// Writes whether the cells are as they were lent, or all zero; a `?` where they are neither.
pub fn print_left(rt: &impl Print, row: &[u32]) {
    let state = if is_left(row, 0) {
        "kept"
    } else if is_zero(row) {
        "zero"
    } else {
        "?"
    };
    let _ = print!(rt; "{state}");
}
