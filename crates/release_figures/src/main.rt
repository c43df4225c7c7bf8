// Makes a release's list of figures: reads lines as why_lines does, cuts the texts with the words
// of the lines before them, and at the end writes the figures, one name and number a line. A read
// or a write that fails stops it at once, and so do figures that are full; a line on standard error
// tells it.
#![tactic(auto)]

use figures_cells::Figures;
use release_lines::count_line;
use release_table::write_figures;
use sheet_bytes::front;
use sheet_io::{Failure, Lines, read_lines, write_whole};
use std::fmt;
use std::io::{Read, Write};

// The rows are as long as those of why_lines.
const LINE: usize = 1025;

const POOL: usize = 16384;

const TEXT: usize = 1023;

const POSITIONS: usize = 1024;

const PAIRS: usize = 2046;

const SCRATCH: usize = 9335;

// Sixteen lines, each of a name of at most 15 bytes, a space, at most 20 digits and a line feed.
const LIST: usize = 592;

// Why no list is written.
#[derive(Drop)]
enum Stop {
    Io(Failure),
    FiguresFull,
}

impl From<Failure> for Stop {
    fn from(failure: Failure) -> Stop {
        Stop::Io(failure)
    }
}

impl fmt::Display for Stop {
    fn fmt<W: fmt::Write>(&self, f: &mut fmt::Formatter<W>) -> fmt::Result {
        match self {
            Stop::Io(failure) => write!(f, "{failure}"),
            Stop::FiguresFull => f.write_str("the figures are full"),
        }
    }
}

// The figures so far, and the rows for counting.
#[derive(Drop)]
struct Counting {
    figures: Figures,
    pool: [u32; POOL],
    scalars: [u32; TEXT],
    positions: [u32; POSITIONS],
    pairs: [u32; PAIRS],
    scratch: [u32; SCRATCH],
}

impl Lines for Counting {
    type Stop = Stop;

    fn take_line(&mut self, line: &[u8]) -> Result<(), Stop> {
        let Counting {
            figures,
            pool,
            scalars,
            positions,
            pairs,
            scratch,
        } = self;
        if count_line(line, figures, pool, scalars, positions, pairs, scratch) {
            return Err(Stop::FiguresFull);
        }
        Ok(())
    }
}

fn main(rt: HostRuntime) {
    if let Err(stop) = count_all(&mut rt.stdin(), &mut rt.stdout()) {
        let _ = println!(rt.stderr(); "release_figures: {stop}");
    }
}

// Counts the lines of all of the input, and writes the list.
fn count_all<R: Read, W: Write>(input: &mut R, output: &mut W) -> Result<(), Stop> {
    let mut row = [0u8; LINE];
    let mut pool = [0; POOL];
    // A pool of this length is not refused.
    let _ = trie_char::fresh(&mut pool);
    let mut counting = Counting {
        figures: [0; 16],
        pool,
        scalars: [0; TEXT],
        positions: [0; POSITIONS],
        pairs: [0; PAIRS],
        scratch: [0; SCRATCH],
    };
    read_lines(input, &mut row, &mut counting)?;
    let mut out = [0u8; LIST];
    let n = write_figures(&counting.figures, &mut out);
    write_whole(output, front(&out, n))?;
    Ok(())
}
