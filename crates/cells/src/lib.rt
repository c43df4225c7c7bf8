// Rows of cells that are lent to be filled, moved or cleared.
//   wide, narrow              a cell as a number, and a number as a cell
//   shift                     adds a number to the first cells
//   clear_from, clear_first   sets the cells from a place on to 0, or those before it
//   copy                      the first cells of one row at the front of another
#![tactic(auto)]

ghost use Rattle.std.specs.Prelude.{◌≡◌, ◌++◌, map, ℕ, ◌+◌, ◌-◌, ◌≤◌, ◌<◌, length, get_or, take, drop, replicate};

// A cell as a number.
pub fn wide(x: u32) -> usize
    ensures { result ≡ x }
{
    x as usize
}

// A number as a cell.
pub fn narrow(x: usize) -> u32
    requires { x ≤ 1048576 }
    ensures { result ≡ x }
{
    x as u32
}

// Kept: (6) here and below: the contract says what becomes of the whole row, which a caller that
// lends a part of it would have to put together again.
//
// Adds `by` to each of the first k cells.
pub fn shift(row: &mut [u32], k: usize, by: usize)
    requires { (k ≤ length row.old) × ((i : ℕ) → i < k → get_or row.old i 0 + by ≤ 65535) }
    ensures { row.new
        ≡ map (λ (e : ℕ). by + e) (take k row.old) ++ drop k row.old }
{
    for cell in row[..k].iter_mut() {
        *cell = narrow(by + wide(*cell));
    }
}

// Sets every cell from k on to 0.
pub fn clear_from(row: &mut [u32], k: usize)
    requires { k ≤ length row.old }
    ensures { row.new ≡ take k row.old ++ replicate (length row.old - k) 0 }
{
    row[k..].fill(0);
}

// Sets the first k cells to 0.
pub fn clear_first(row: &mut [u32], k: usize)
    requires { k ≤ length row.old }
    ensures { row.new ≡ replicate k 0 ++ drop k row.old }
{
    clear_from(&mut row[..k], 0);
}

// Copies the first k cells of one row to the front of another, which keeps its other cells.
pub fn copy(from: &[u32], to: &mut [u32], k: usize)
    requires { (k ≤ length from.now) × (k ≤ length to.old) }
    ensures { to.new ≡ take k from.now ++ drop k to.old }
{
    for i in 0..k {
        to[i] = from[i];
    }
}
