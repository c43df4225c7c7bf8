// The answers of decoding, and of ends in bytes.
ghost use Rattle.std.specs.Prelude.{◌≤◌, length};

use crate::{Or, Rows};
use std::io;
use test_lines::{Cells, Refused, field, first, lent, number, read_bytes, read_cells};
use test_rows::{expect_leftovers, smear};

impl Rows<'_> {
    // decode bytes, out cells, position cells => ok n scalars, and the positions: the first, and
    //   how far each is from the one before
    pub(crate) fn decode(&mut self, rt: &impl Print, line: &[u8]) -> io::Result<()> {
        let (bytes, cells, positions) = (&mut *self.bytes, &mut *self.cells, &mut *self.positions);
        let n = read_bytes(rt, field(line, 1), bytes);
        let room = lent(rt, field(line, 2), cells.len());
        let places = lent(rt, field(line, 3), positions.len());
        tell_decoded(
            rt,
            &bytes[..n],
            &mut cells[..room],
            &mut positions[..places],
        )
    }

    // endbytes bytes, ends as cells => ok the ends in bytes, joined by commas, `x` for one that has
    //   none
    pub(crate) fn ends_in_bytes(&mut self, rt: &impl Print, line: &[u8]) -> io::Result<()> {
        let (bytes, cells, positions) = (&mut *self.bytes, &mut *self.cells, &mut *self.positions);
        let n = read_bytes(rt, field(line, 1), bytes);
        match utf8::decode(&bytes[..n], cells, positions) {
            Ok(characters) => {
                let ends = read_cells(rt, field(line, 2), cells);
                print!(rt; "ok ")?;
                tell_ends(rt, positions, characters, first(cells, ends))
            }
            Err(r) => print!(rt; "{}", Refused(r)),
        }
    }

    // end_in_bytes a position row, n, end => ok place, or ok x
    pub(crate) fn end_in_row(&mut self, rt: &impl Print, line: &[u8]) -> io::Result<()> {
        let cells = read_cells(rt, field(line, 1), self.positions);
        let n = number(rt, field(line, 2));
        let end = number(rt, field(line, 3));
        let place = utf8::end_in_bytes(first(self.positions, cells), n, end);
        print!(rt; "ok {}", Or(place, "x"))
    }
}

fn tell_decoded(
    rt: &impl Print,
    bytes: &[u8],
    out: &mut [u32],
    positions: &mut [u32],
) -> io::Result<()> {
    smear(out);
    smear(positions);
    match utf8::decode(bytes, out, positions) {
        Ok(n) => {
            let scalars = first(out, n);
            let places = scalars.len() + 1;
            expect_leftovers(rt, out, n);
            expect_leftovers(rt, positions, places);
            steps(positions);
            print!(rt;
                "ok {n} {} {}",
                Cells(scalars),
                Cells(first(positions, places))
            )
        }
        Err(r) => {
            expect_leftovers(rt, out, 0);
            expect_leftovers(rt, positions, 0);
            print!(rt; "{}", Refused(r))
        }
    }
}

// Each cell but the first becomes its distance from the one before it.
fn steps(row: &mut [u32]) {
    let mut from = 0u32;
    for cell in row.iter_mut() {
        let x = *cell;
        *cell = x.wrapping_sub(from);
        from = x;
    }
}

fn tell_ends(rt: &impl Print, positions: &[u32], n: usize, ends: &[u32]) -> io::Result<()> {
    if ends.is_empty() {
        return print!(rt; "-");
    }
    for (i, end) in ends.iter().enumerate() {
        if i > 0 {
            print!(rt; ",")?;
        }
        let place = utf8::end_in_bytes(positions, n, *end as usize);
        print!(rt; "{}", Or(place, "x"))?;
    }
    Ok(())
}
