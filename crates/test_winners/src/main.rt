// Replays the test vectors of `tcc_tables`: a line with the answer for each line of standard input.
//
// Both rows are lent full of leftovers. Where a call leaves a cell otherwise than documents 01 and
// 02 say, a `?` is written.
#![tactic(auto)]

ghost use Rattle.std.specs.Prelude.{◌≤◌, length};

use std::io;
use tcc_tables::tcc_winners;
use test_lines::{Answers, Joined, Refused, field, first, lent, read_cells, replay};
use test_rows::{expect_leftovers, smear};

const INPUT: usize = 262144;

// A little more than the longest text that is accepted.
const CELLS: usize = 65540;

fn main(rt: HostRuntime) {
    let mut input = [0u8; INPUT];
    let mut text = [0u32; CELLS];
    let mut ends = [0u32; CELLS];
    let mut winners = [0u32; CELLS];
    let mut rows = Rows {
        text: &mut text,
        ends: &mut ends,
        winners: &mut winners,
    };
    let _ = replay(&rt, &mut rt.stdin(), &mut input, &mut rows);
}

#[derive(Drop)]
struct Rows<'a> {
    text: &'a mut [u32],
    ends: &'a mut [u32],
    winners: &'a mut [u32],
}

impl Answers for Rows<'_> {
    // alts scalars, cells for the ends, cells for the winners => ok ends winners
    fn answer(&mut self, rt: &impl Print, line: &[u8]) -> io::Result<()> {
        let (text, ends, winners) = (&mut *self.text, &mut *self.ends, &mut *self.winners);
        if !matches!(field(line, 0), b"alts") {
            return print!(rt; "?");
        }
        let n = read_cells(rt, field(line, 1), text);
        let room = lent(rt, field(line, 2), ends.len());
        let more = lent(rt, field(line, 3), winners.len());
        let text = &text[..n];
        tell_winners(rt, text, &mut ends[..room], &mut winners[..more])
    }
}

fn tell_winners(
    rt: &impl Print,
    text: &[u32],
    ends: &mut [u32],
    winners: &mut [u32],
) -> io::Result<()> {
    smear(ends);
    smear(winners);
    match tcc_winners(text, ends, winners) {
        Ok(n) => {
            let (won, by) = (first(ends, n), first(winners, n));
            print!(rt; "ok {} {}", Joined(won, ','), Joined(by, ','))?;
            expect_leftovers(rt, ends, n);
            expect_leftovers(rt, winners, n);
        }
        Err(r) => {
            print!(rt; "{}", Refused(r))?;
            expect_leftovers(rt, ends, 0);
            expect_leftovers(rt, winners, 0);
        }
    }
    Ok(())
}
