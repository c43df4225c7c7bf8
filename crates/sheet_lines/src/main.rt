// The line program: adds and removes words, and cuts texts by them, a reply for each line of
// standard input. A read or a write that fails stops it at once, and a line on standard error tells
// which and why.
#![tactic(auto)]

ghost use Rattle.std.specs.Prelude.{⊤};

use sheet_bytes::front;
use sheet_io::{Failure, Program, read_all, write_whole};
use sheet_steps::{LINE, POOL, POSITIONS, REPLY, SCRATCH, TEXT, last, step};
use std::io::{Read, Write};

// The rows of a run: `kept` bytes of a line that goes on stand at the front of `line`.
#[derive(Drop)]
struct Run<'a, W> {
    output: &'a mut W,
    line: [u8; LINE],
    kept: usize,
    pool: [u32; POOL],
    scalars: [u32; TEXT],
    positions: [u32; POSITIONS],
    ends: [u32; TEXT],
    scratch: [u32; SCRATCH],
    out: [u8; REPLY],
}

impl<'a, W: Write> Run<'a, W> {
    // Writes the reply of a last line without a line feed.
    fn end(&mut self) -> Result<(), Failure> {
        let Run {
            output,
            line,
            kept,
            pool,
            scalars,
            positions,
            ends,
            scratch,
            out,
        } = self;
        let n = last(line, *kept, pool, scalars, positions, ends, scratch, out);
        write_whole(output, front(out, n))
    }
}

impl<'a, W: Write> Program for Run<'a, W> {
    type Stop = Failure;

    ghost takes = { λ s bytes t. ⊤ };

    // Writes the replies of the lines that end in the bytes.
    fn take(&mut self, bytes: &[u8]) -> Result<(), Failure> {
        let Run {
            output,
            line,
            kept,
            pool,
            scalars,
            positions,
            ends,
            scratch,
            out,
        } = self;
        let mut rest = bytes;
        while !rest.is_empty() {
            let fed = step(
                rest, line, *kept, pool, scalars, positions, ends, scratch, out,
            );
            *kept = fed.kept;
            write_whole(output, front(out, fed.written))?;
            rest = &rest[fed.taken..];
        }
        Ok(())
    }
}

fn main(rt: HostRuntime) {
    if let Err(failure) = answer_all(&mut rt.stdin(), &mut rt.stdout()) {
        let _ = println!(rt.stderr(); "sheet_lines: {failure}");
    }
}

// Answers the lines of all of the input.
fn answer_all<R: Read, W: Write>(input: &mut R, output: &mut W) -> Result<(), Failure> {
    let mut pool = [0; POOL];
    // A pool of this length is not refused.
    let _ = trie_char::fresh(&mut pool);
    let mut run = Run {
        output,
        line: [0; LINE],
        kept: 0,
        pool,
        scalars: [0; TEXT],
        positions: [0; POSITIONS],
        ends: [0; TEXT],
        scratch: [0; SCRATCH],
        out: [0; REPLY],
    };
    read_all(input, &mut run)?;
    run.end()
}
