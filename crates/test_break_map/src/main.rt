// Replays the test vectors of maps of breaks: a line with the answer for each line of standard
// input. In a line a cell of 64 bits is two cells of 32, the lower half first.
//
// A map is written to a row full of leftovers. Where a call changes a cell that it must keep, a `?`
// is written.
#![tactic(auto)]

ghost use Rattle.std.specs.Prelude.{◌≤◌, length};

use break_map::{break_map, breaks_up_to, next_break};
use std::io;
use test_lines::{Answers, Cells, Refused, field, first, lent, number, read_cells, replay};
use test_rows::{expect_leftovers, smear};

const INPUT: usize = 589824;

const ENDS: usize = 70000;

// More than a map of 65,535 characters takes.
const CELLS: usize = 1100;

const HALVES: usize = 2200;

const HALF: u64 = 4294967296;

fn main(rt: HostRuntime) {
    let mut input = [0u8; INPUT];
    let mut ends = [0u32; ENDS];
    let mut map = [0u64; CELLS];
    let mut halves = [0u32; HALVES];
    let mut rows = Rows {
        ends: &mut ends,
        map: &mut map,
        halves: &mut halves,
    };
    let _ = replay(&rt, &mut rt.stdin(), &mut input, &mut rows);
}

#[derive(Drop)]
struct Rows<'a> {
    ends: &'a mut [u32],
    map: &'a mut [u64],
    halves: &'a mut [u32],
}

impl Answers for Rows<'_> {
    fn answer(&mut self, rt: &impl Print, line: &[u8]) -> io::Result<()> {
        match field(line, 0) {
            b"map" => self.write(rt, line),
            b"rank" => self.count(rt, line),
            b"next" => self.find(rt, line),
            _ => print!(rt; "?"),
        }
    }
}

impl Rows<'_> {
    // map n, ends as cells, cells of the row => ok the cells written
    fn write(&mut self, rt: &impl Print, line: &[u8]) -> io::Result<()> {
        let (ends, map, halves) = (&mut *self.ends, &mut *self.map, &mut *self.halves);
        let n = number(rt, field(line, 1));
        let k = read_cells(rt, field(line, 2), ends);
        let cells = lent(rt, field(line, 3), map.len());
        let ends = &ends[..k];
        tell_map(rt, n, ends, &mut map[..cells], halves)
    }

    // rank n, the row's cells, position => ok breaks
    fn count(&mut self, rt: &impl Print, line: &[u8]) -> io::Result<()> {
        let cells = read_map(rt, field(line, 2), self.map, self.halves);
        let n = number(rt, field(line, 1));
        let position = number(rt, field(line, 3));
        match breaks_up_to(n, first(self.map, cells), position) {
            Ok(k) => print!(rt; "ok {k}"),
            Err(r) => print!(rt; "{}", Refused(r)),
        }
    }

    // next n, the row's cells, position => ok position, or ok none
    fn find(&mut self, rt: &impl Print, line: &[u8]) -> io::Result<()> {
        let cells = read_map(rt, field(line, 2), self.map, self.halves);
        let n = number(rt, field(line, 1));
        let position = number(rt, field(line, 3));
        match next_break(n, first(self.map, cells), position) {
            Ok(Some(p)) => print!(rt; "ok {p}"),
            Ok(None) => print!(rt; "ok none"),
            Err(r) => print!(rt; "{}", Refused(r)),
        }
    }
}

fn tell_map(
    rt: &impl Print,
    n: usize,
    ends: &[u32],
    row: &mut [u64],
    halves: &mut [u32],
) -> io::Result<()> {
    smear(row);
    match break_map(n, ends, row) {
        Ok(k) => {
            expect_leftovers(rt, row, k);
            let map = first(row, k);
            halve(map, halves);
            print!(rt; "ok {}", Cells(first(halves, 2 * map.len())))
        }
        Err(r) => {
            expect_leftovers(rt, row, 0);
            print!(rt; "{}", Refused(r))
        }
    }
}

// Puts the halves of the cells of a map to the front of the row.
fn halve(map: &[u64], halves: &mut [u32]) {
    for (pair, cell) in halves.chunks_exact_mut(2).zip(map) {
        if let [low, high] = pair {
            *low = lower(*cell);
            *high = upper(*cell);
        }
    }
}

// Reads a map to the front of the row; how many cells it has.
fn read_map(rt: &impl Print, text: &[u8], map: &mut [u64], halves: &mut [u32]) -> usize
    ensures { result ≤ length map.old }
{
    let n = read_cells(rt, text, halves);
    if map.len() < n / 2 {
        let _ = print!(rt; "?");
    }
    for (cell, pair) in map.iter_mut().zip(halves[..n].chunks_exact(2)) {
        if let [low, high] = pair {
            *cell = joined(*low, *high);
        }
    }
    map.len().min(n / 2)
}

// The halves of a cell, and the cell that has them.
fn lower(x: u64) -> u32 {
    (x % HALF) as u32
}

fn upper(x: u64) -> u32 {
    (x / HALF) as u32
}

fn joined(low: u32, high: u32) -> u64 {
    u64::from(low) + HALF * u64::from(high)
}
