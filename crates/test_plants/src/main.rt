// Replays the test vectors of two plants in one pool: a line with the answer for each line of
// standard input.
//
// Outputs and scratch are lent full of leftovers. Where a call leaves a cell otherwise than
// documents 01 and 02 say, a `?` is written.
#![tactic(auto)]

mod calls;
mod cuts;
mod steps;

ghost use Rattle.std.specs.Prelude.{◌≤◌, IfOk, length};

use crate::calls::amount;
use crate::steps::step;
use std::io;
use test_lines::{Answers, Told, field, first, lent, opened, parts_of, read_cells, replay};
use trie_plants::Plant;

const INPUT: usize = 327680;

const POOL: usize = 24576;

// More than the longest text that is accepted.
const CELLS: usize = 70000;

// A cell that no dictionary has.
const NO_CELL: u32 = u32::MAX;

fn main(rt: HostRuntime) {
    let mut input = [0u8; INPUT];
    let mut pool = [0u32; POOL];
    let mut cells = [0u32; CELLS];
    let mut rows = Rows {
        pool: &mut pool,
        cells: &mut cells,
    };
    let _ = replay(&rt, &mut rt.stdin(), &mut input, &mut rows);
}

#[derive(Drop)]
struct Rows<'a> {
    pool: &'a mut [u32],
    cells: &'a mut [u32],
}

impl Answers for Rows<'_> {
    fn answer(&mut self, rt: &impl Print, line: &[u8]) -> io::Result<()> {
        let (pool, cells) = (&mut *self.pool, &mut *self.cells);
        match field(line, 0) {
            b"plants" => script(rt, line, pool, cells),
            b"halves" => {
                let n = read_cells(rt, field(line, 1), pool);
                halves(rt, &pool[..n])
            }
            _ => print!(rt; "?"),
        }
    }
}

// plants pool cells, script => ok answers
fn script(rt: &impl Print, line: &[u8], pool: &mut [u32], cells: &mut [u32]) -> io::Result<()> {
    let mut n = lent(rt, field(line, 1), pool.len());
    pool.fill(NO_CELL);
    print!(rt; "ok ")?;
    for (i, text) in parts_of(field(line, 2), b';').enumerate() {
        if i > 0 {
            print!(rt; ";")?;
        }
        n = turn(rt, text, n, pool, cells)?;
    }
    Ok(())
}

// Makes a step with the first n cells of the pool lent, and answers how many are lent from then on.
fn turn(
    rt: &impl Print,
    text: &[u8],
    n: usize,
    pool: &mut [u32],
    cells: &mut [u32],
) -> io::Result<usize>
    ensures { IfOk result (λ m. m ≤ length pool.new) }
{
    let room = n.min(pool.len());
    let (op, given) = opened(text);
    if op == b'l' {
        let most = lent(rt, given, pool.len());
        let whole = room / 8 * 8;
        if whole < most {
            pool[whole..most].fill(0);
        }
        print!(rt; "{most}")?;
        return Ok(most);
    }
    step(rt, text, &mut pool[..room], cells)?;
    Ok(room.min(pool.len()))
}

// halves the pool's cells => ok answers of word count: plain, of plant A, of plant B
fn halves(rt: &impl Print, pool: &[u32]) -> io::Result<()> {
    let plain = amount(None, pool);
    let a = amount(Some(Plant::A), pool);
    let b = amount(Some(Plant::B), pool);
    print!(rt; "ok {};{};{}", Told(plain), Told(a), Told(b))
}
