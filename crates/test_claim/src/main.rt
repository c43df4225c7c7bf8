// Replays the test vectors of the check of a claim: a line with the answer for each line of
// standard input.
//
// Scratch is lent full of leftovers. Where a call leaves a cell otherwise than documents 01 and 02
// say, a `?` is written.
#![tactic(auto)]

ghost use Rattle.std.specs.Prelude.{◌≤◌, length};

use newmm_claim::{Verdict, check_claim};
use std::io;
use test_lines::{Answers, Refused, field, first, read_cells, replay};
use test_rows::{expect_leftovers, expect_zero, scratch_cells, smear};
use test_words::hold;

const INPUT: usize = 589824;

// Words with a node for each of their characters.
const POOL: usize = 262144;

// More than the longest text that is accepted.
const TEXT: usize = 70000;

const SCRATCH: usize = 589952;

fn main(rt: HostRuntime) {
    let mut input = [0u8; INPUT];
    let mut pool = [0u32; POOL];
    let mut text = [0u32; TEXT];
    let mut claimed = [0u32; TEXT];
    let mut scratch = [0u32; SCRATCH];
    let mut rows = Rows {
        pool: &mut pool,
        text: &mut text,
        claimed: &mut claimed,
        scratch: &mut scratch,
    };
    let _ = replay(&rt, &mut rt.stdin(), &mut input, &mut rows);
}

#[derive(Drop)]
struct Rows<'a> {
    pool: &'a mut [u32],
    text: &'a mut [u32],
    claimed: &'a mut [u32],
    scratch: &'a mut [u32],
}

impl Answers for Rows<'_> {
    // claim words, scalars, claimed ends as cells, scratch cells => ok yes, or ok token
    // claim_pool the pool's cells, scalars, claimed ends as cells, scratch cells => the same
    fn answer(&mut self, rt: &impl Print, line: &[u8]) -> io::Result<()> {
        let (pool, text, claimed, scratch) = (
            &mut *self.pool,
            &mut *self.text,
            &mut *self.claimed,
            &mut *self.scratch,
        );
        let cells = match field(line, 0) {
            b"claim" => hold(rt, field(line, 1), text, pool),
            b"claim_pool" => read_cells(rt, field(line, 1), pool),
            _ => return print!(rt; "?"),
        };
        let n = read_cells(rt, field(line, 2), text);
        let ends = read_cells(rt, field(line, 3), claimed);
        let room = scratch_cells(rt, field(line, 4), n, scratch.len());
        tell_claim(
            rt,
            &text[..n],
            first(pool, cells),
            &claimed[..ends],
            &mut scratch[..room],
        )
    }
}

fn tell_claim(
    rt: &impl Print,
    text: &[u32],
    pool: &[u32],
    claimed: &[u32],
    scratch: &mut [u32],
) -> io::Result<()> {
    smear(scratch);
    match check_claim(text, pool, claimed, scratch) {
        Ok(verdict) => {
            expect_zero(rt, scratch);
            match verdict {
                Verdict::Right => print!(rt; "ok yes"),
                Verdict::Wrong(k) => print!(rt; "ok {k}"),
            }
        }
        Err(r) => {
            expect_leftovers(rt, scratch, 0);
            print!(rt; "{}", Refused(r))
        }
    }
}
