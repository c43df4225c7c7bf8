// The bytes of a line.
//   count_before  how many bytes stand before the first of a kind
//   line_end      where the first line feed stands
//   keep          adds bytes to those at the front of a row
//   front         the first bytes of a row
#![tactic(auto)]

ghost use Rattle.std.specs.Prelude.{◌≡◌, ℕ, not, eqb, length, take, take_while};
ghost use Rattle.sheet_bytes.specs.Lines.{line_end, kept, laid};

// How many bytes stand before the first that is `stop`: all of them where none is.
pub fn count_before(bytes: &[u8], stop: u8) -> usize
    ensures { result ≡ length (take_while (λ (b : ℕ). not (eqb b stop)) bytes.now) }
{
    bytes.iter().take_while(|b| **b != stop).count()
}

// Where the first line feed stands, or the length where there is none.
pub fn line_end(bytes: &[u8]) -> usize
    ensures { result ≡ line_end bytes.now }
{
    count_before(bytes, b'\n')
}

// Adds the bytes of a part to the first `used` of a row, as far as there is room. Answers how many
// there are then.
pub fn keep(row: &mut [u8], used: usize, part: &[u8]) -> usize
    ensures value { result ≡ length (kept row.old used part.now) }
    ensures row_after { row.new ≡ laid (kept row.old used part.now) row.old }
{
    if row.len() < used {
        return row.len();
    }
    let n = part.len().min(row.len() - used);
    row[used..used + n].copy_from_slice(&part[..n]);
    used + n
}

// The first n bytes of a row, or all of it where there are fewer: that part of the row itself.
pub fn front(row: &[u8], n: usize) -> &[u8]
    ensures result_value { result.now ≡ take n row.now }
    ensures ref_ptr_value { result.ref_ptr ≡ row.entry.ref_ptr }
{
    &row[..n.min(row.len())]
}
