// Cuts, and cuts with reasons. Output and scratch are lent full of leftovers.
ghost use Rattle.std.specs.Prelude.{◌≤◌, length};

use crate::calls::{Whose, ends, reasons};
use newmm_rules::{Ends, Mode};
use refusal::Refusal;
use std::io;
use test_lines::{Joined, Pairs, Told, first, lent, read_cells};
use test_rows::{expect_leftovers, expect_zero, mode_of, scratch_cells, smear};

const OUT: usize = 4096;

const SCRATCH: usize = 16384;

// The k-th part of a text between marks.
fn part(text: &[u8], k: usize) -> &[u8] {
    text.split(|b| *b == b'/').nth(k).unwrap_or(&[])
}

// scalars => ends of the plain cut
pub fn plain_ends(
    rt: &impl Print,
    whose: Whose,
    scalars: &[u8],
    pool: &[u32],
    cells: &mut [u32],
) -> io::Result<()> {
    let mut out = [0u32; OUT];
    let mut scratch = [0u32; SCRATCH];
    let n = read_cells(rt, scalars, cells);
    let text = &cells[..n];
    tell_ends(rt, whose, text, pool, &mut out, &mut scratch, Mode::Plain)?;
    Ok(())
}

// mode/scalars/scratch cells/output cells => ends/edges
pub fn cut_step(
    rt: &impl Print,
    whose: Whose,
    given: &[u8],
    pool: &[u32],
    cells: &mut [u32],
) -> io::Result<()> {
    let mut out = [0u32; OUT];
    let mut scratch = [0u32; SCRATCH];
    let n = read_cells(rt, part(given, 1), cells);
    let room = scratch_cells(rt, part(given, 2), n, scratch.len());
    let Some(mode) = mode_of(part(given, 0)) else {
        return print!(rt; "?");
    };
    let places = lent(rt, part(given, 3), out.len());
    let text = &cells[..n];
    let (out, scratch) = (&mut out[..places], &mut scratch[..room]);
    match tell_ends(rt, whose, text, pool, out, scratch, mode)? {
        Some(edges) => print!(rt; "/{edges}"),
        None => Ok(()),
    }
}

// mode/scalars/scratch cells/records => ends and reasons/edges
pub fn reasons_step(
    rt: &impl Print,
    whose: Whose,
    given: &[u8],
    pool: &[u32],
    cells: &mut [u32],
) -> io::Result<()> {
    let mut out = [0u32; OUT];
    let mut scratch = [0u32; SCRATCH];
    let n = read_cells(rt, part(given, 1), cells);
    let room = scratch_cells(rt, part(given, 2), n, scratch.len());
    let Some(mode) = mode_of(part(given, 0)) else {
        return print!(rt; "?");
    };
    let records = lent(rt, part(given, 3), out.len() / 2);
    let text = &cells[..n];
    let (out, scratch) = (&mut out[..2 * records], &mut scratch[..room]);
    tell_reasons(rt, whose, text, pool, out, scratch, mode)
}

// Writes the ends of a cut, or why it is refused, and answers its edges.
fn tell_ends(
    rt: &impl Print,
    whose: Whose,
    text: &[u32],
    pool: &[u32],
    out: &mut [u32],
    scratch: &mut [u32],
    mode: Mode,
) -> io::Result<Option<usize>> {
    smear(out);
    smear(scratch);
    match ends(whose, text, pool, out, scratch, mode) {
        Ok(Ends { ends: n, edges }) => {
            expect_zero(rt, scratch);
            expect_leftovers(rt, out, n);
            print!(rt; "{}", Joined(first(out, n), '.'))?;
            Ok(Some(edges))
        }
        Err(r) => {
            refused(rt, r, out, scratch)?;
            Ok(None)
        }
    }
}

fn tell_reasons(
    rt: &impl Print,
    whose: Whose,
    text: &[u32],
    pool: &[u32],
    out: &mut [u32],
    scratch: &mut [u32],
    mode: Mode,
) -> io::Result<()> {
    smear(out);
    smear(scratch);
    match reasons(whose, text, pool, out, scratch, mode) {
        Ok(Ends { ends: n, edges }) => {
            let told = first(out, n.saturating_mul(2));
            expect_zero(rt, scratch);
            print!(rt; "{}", Pairs(told, '.'))?;
            expect_leftovers(rt, out, told.len());
            print!(rt; "/{edges}")
        }
        Err(r) => refused(rt, r, out, scratch),
    }
}

fn refused(rt: &impl Print, r: Refusal, out: &[u32], scratch: &[u32]) -> io::Result<()> {
    match r {
        Refusal::OutputTooShort(_) => expect_zero(rt, scratch),
        _ => expect_leftovers(rt, scratch, 0),
    }
    expect_leftovers(rt, out, 0);
    print!(rt; "{}", Told(Err(r)))
}
