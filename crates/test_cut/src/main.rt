// Replays the test vectors of the cut: a line with the answer for each line of standard input.
//
// Output and scratch are lent full of leftovers. Where a call leaves a cell otherwise than document
// 01 says, a `?` is written.
#![tactic(auto)]

ghost use Rattle.std.specs.Prelude.{◌≤◌, length};

use newmm::cut;
use newmm_rules::{Ends, Mode};
use refusal::Refusal;
use std::io;
use std::io::Read;
use test_lines::{
    Answers, Joined, Refused, field, first, lent, read_cells, read_full, replay_lines,
};
use test_rows::{expect_leftovers, expect_zero, mode_of, scratch_cells, smear};
use test_words::hold;

// The input is read by so many bytes. A line has fewer.
const INPUT: usize = 65536;

// Words with a node for each of their characters.
const POOL: usize = 262144;

// More than the longest text that is accepted.
const TEXT: usize = 70000;

const SCRATCH: usize = 589952;

fn main(rt: HostRuntime) {
    let mut input = [0u8; INPUT];
    let mut pool = [0u32; POOL];
    let mut text = [0u32; TEXT];
    let mut out = [0u32; TEXT];
    let mut scratch = [0u32; SCRATCH];
    let mut rows = Rows {
        pool: &mut pool,
        text: &mut text,
        out: &mut out,
        scratch: &mut scratch,
    };
    replay_all(&rt, &mut rt.stdin(), &mut input, &mut rows);
}

// Replays a source, as many whole lines at once as the row holds. A proved loop has to end: this
// one has more turns than any run uses up.
fn replay_all<R: Read, A: Answers>(
    rt: &impl Print,
    source: &mut R,
    input: &mut [u8],
    answers: &mut A,
) {
    let mut kept = 0;
    for _turn in 0..u64::MAX {
        let n = kept + read_full(source, &mut input[kept..]);
        if n < input.len() {
            let _ = replay_lines(rt, &input[..n], answers);
            return;
        }
        let end = whole_lines(input);
        let _ = replay_lines(rt, &input[..end], answers);
        if end == 0 {
            let _ = print!(rt; "?");
            return;
        }
        input.rotate_left(end);
        kept = input.len() - end;
    }
}

// Where the last whole line of a text ends; 0 where there is none.
fn whole_lines(text: &[u8]) -> usize
    ensures { result ≤ length text.now }
{
    match text.iter().rposition(|b| *b == b'\n') {
        Some(k) => k + 1,
        None => 0,
    }
}

#[derive(Drop)]
struct Rows<'a> {
    pool: &'a mut [u32],
    text: &'a mut [u32],
    out: &'a mut [u32],
    scratch: &'a mut [u32],
}

impl Answers for Rows<'_> {
    // cut mode, words, scalars, scratch cells, out cells => ok ends edges
    // cut_pool mode, the pool's cells, scalars, scratch cells, out cells => ok ends edges
    fn answer(&mut self, rt: &impl Print, line: &[u8]) -> io::Result<()> {
        let (pool, text, out, scratch) = (
            &mut *self.pool,
            &mut *self.text,
            &mut *self.out,
            &mut *self.scratch,
        );
        let cells = match field(line, 0) {
            b"cut" => hold(rt, field(line, 2), text, pool),
            b"cut_pool" => read_cells(rt, field(line, 2), pool),
            _ => return print!(rt; "?"),
        };
        let n = read_cells(rt, field(line, 3), text);
        let room = scratch_cells(rt, field(line, 4), n, scratch.len());
        let ends = lent(rt, field(line, 5), out.len());
        let Some(mode) = mode_of(field(line, 1)) else {
            return print!(rt; "?");
        };
        tell_cut(
            rt,
            &text[..n],
            first(pool, cells),
            &mut out[..ends],
            &mut scratch[..room],
            mode,
        )
    }
}

fn tell_cut(
    rt: &impl Print,
    text: &[u32],
    pool: &[u32],
    out: &mut [u32],
    scratch: &mut [u32],
    mode: Mode,
) -> io::Result<()> {
    smear(out);
    smear(scratch);
    match cut(text, pool, out, scratch, mode) {
        Ok(Ends { ends, edges }) => {
            expect_zero(rt, scratch);
            expect_leftovers(rt, out, ends);
            print!(rt; "ok {} {edges}", Joined(first(out, ends), ','))
        }
        Err(r) => {
            match r {
                Refusal::OutputTooShort(_) => expect_zero(rt, scratch),
                _ => expect_leftovers(rt, scratch, 0),
            }
            expect_leftovers(rt, out, 0);
            print!(rt; "{}", Refused(r))
        }
    }
}
