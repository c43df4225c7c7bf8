// Replays the test vectors of the cut with reasons: a line with the answer for each line of
// standard input.
//
// The row of pairs has one cell more than its records take. It and scratch are lent full of
// leftovers. Where a call leaves a cell otherwise than documents 01 and 02 say, a `?` is written.
#![tactic(auto)]

ghost use Rattle.std.specs.Prelude.{◌≤◌, length};

use newmm_reasons::cut_reasons;
use newmm_rules::{Ends, Mode};
use refusal::Refusal;
use std::io;
use test_lines::{Answers, Pairs, Refused, field, first, lent, read_cells, replay};
use test_rows::{expect_leftovers, expect_zero, mode_of, scratch_cells, smear};
use test_words::hold;

const INPUT: usize = 589824;

// Words with a node for each of their characters.
const POOL: usize = 262144;

// More than the longest text that is accepted.
const TEXT: usize = 70000;

// Pairs for as many tokens, and a cell more.
const PAIRS: usize = 140001;

const SCRATCH: usize = 589952;

fn main(rt: HostRuntime) {
    let mut input = [0u8; INPUT];
    let mut pool = [0u32; POOL];
    let mut text = [0u32; TEXT];
    let mut pairs = [0u32; PAIRS];
    let mut scratch = [0u32; SCRATCH];
    let mut rows = Rows {
        pool: &mut pool,
        text: &mut text,
        pairs: &mut pairs,
        scratch: &mut scratch,
    };
    let _ = replay(&rt, &mut rt.stdin(), &mut input, &mut rows);
}

#[derive(Drop)]
struct Rows<'a> {
    pool: &'a mut [u32],
    text: &'a mut [u32],
    pairs: &'a mut [u32],
    scratch: &'a mut [u32],
}

impl Answers for Rows<'_> {
    // reasons mode, words, scalars, scratch cells, records => ok end:reason,.. edges
    // reasons_pool mode, the pool's cells, scalars, scratch cells, records => the same
    fn answer(&mut self, rt: &impl Print, line: &[u8]) -> io::Result<()> {
        let (pool, text, pairs, scratch) = (
            &mut *self.pool,
            &mut *self.text,
            &mut *self.pairs,
            &mut *self.scratch,
        );
        let cells = match field(line, 0) {
            b"reasons" => hold(rt, field(line, 2), text, pool),
            b"reasons_pool" => read_cells(rt, field(line, 2), pool),
            _ => return print!(rt; "?"),
        };
        let n = read_cells(rt, field(line, 3), text);
        let room = scratch_cells(rt, field(line, 4), n, scratch.len());
        let records = lent(rt, field(line, 5), pairs.len() / 2);
        let Some(mode) = mode_of(field(line, 1)) else {
            return print!(rt; "?");
        };
        let told = pairs.len().min(2 * records + 1);
        tell_reasons(
            rt,
            &text[..n],
            first(pool, cells),
            &mut pairs[..told],
            &mut scratch[..room],
            mode,
        )
    }
}

fn tell_reasons(
    rt: &impl Print,
    text: &[u32],
    pool: &[u32],
    pairs: &mut [u32],
    scratch: &mut [u32],
    mode: Mode,
) -> io::Result<()> {
    smear(pairs);
    smear(scratch);
    match cut_reasons(text, pool, pairs, scratch, mode) {
        Ok(Ends { ends, edges }) => {
            let told = first(pairs, ends.saturating_mul(2));
            expect_zero(rt, scratch);
            expect_leftovers(rt, pairs, told.len());
            print!(rt; "ok {} {edges}", Pairs(told, ','))
        }
        Err(r) => {
            match r {
                Refusal::OutputTooShort(_) => expect_zero(rt, scratch),
                _ => expect_leftovers(rt, scratch, 0),
            }
            expect_leftovers(rt, pairs, 0);
            print!(rt; "{}", Refused(r))
        }
    }
}
