// The program that makes an image of a word list. The list stands on standard input, a word to a
// line, in any order, with a tab and its class in decimal behind a word that has one. The image
// goes to standard output. A refusal, or a read or a write that fails, is told in a line on
// standard error, and no image is written then.
#![tactic(auto)]

use refusal::Refusal;
use sheet_bytes::front;
use sheet_io::{Failure, Lines, read_lines, write_whole};
use std::fmt;
use std::io::{Read, Write};
use word_lines::{LineError, take_line};
use word_list_write::write_image;

// A line has fewer bytes.
const LINE: usize = 2048;

// Cells of 32,768 nodes.
const POOL: usize = 262144;

const TEXT: usize = 2048;

const POSITIONS: usize = 2049;

const IMAGE: usize = 524288;

// Why no image is written.
#[derive(Drop)]
enum Stop {
    Io(Failure),
    // The line of this number, from 1 on, has too many bytes.
    TooLong(u64),
    // The line of this number is refused.
    Line(u64, LineError),
    // Writing the image is refused.
    Image(Refusal),
}

impl From<Failure> for Stop {
    fn from(failure: Failure) -> Stop {
        Stop::Io(failure)
    }
}

impl fmt::Display for Stop {
    fn fmt<W: fmt::Write>(&self, f: &mut fmt::Formatter<W>) -> fmt::Result {
        match self {
            Stop::Io(failure) => write!(f, "{failure}"),
            Stop::TooLong(line) => write!(f, "line {line}: too long"),
            Stop::Line(line, error) => write!(f, "line {line}: {error}"),
            Stop::Image(refusal) => {
                let error = LineError::Refused(*refusal);
                write!(f, "{error}")
            }
        }
    }
}

// The words so far, the rows for one more, and how many lines were read.
#[derive(Drop)]
struct Adding<'a> {
    pool: &'a mut [u32],
    scalars: &'a mut [u32],
    positions: &'a mut [u32],
    lines: u64,
}

impl<'a> Lines for Adding<'a> {
    type Stop = Stop;

    // Adds the word of the next line.
    fn take_line(&mut self, line: &[u8]) -> Result<(), Stop> {
        self.lines = self.lines.saturating_add(1);
        if LINE <= line.len() {
            return Err(Stop::TooLong(self.lines));
        }
        match take_line(line, self.pool, self.scalars, self.positions) {
            Ok(_) => Ok(()),
            Err(error) => Err(Stop::Line(self.lines, error)),
        }
    }
}

fn main(rt: HostRuntime) {
    let mut pool = [0; POOL];
    // A pool of this length is not refused.
    let _ = trie_char::fresh(&mut pool);
    if let Err(stop) = make_image(&mut rt.stdin(), &mut rt.stdout(), &mut pool) {
        let _ = println!(rt.stderr(); "word_image: {stop}");
    }
}

// Adds the words of all of the input to the pool, and writes their image.
fn make_image<R: Read, W: Write>(
    input: &mut R,
    output: &mut W,
    pool: &mut [u32],
) -> Result<(), Stop> {
    let mut row = [0u8; LINE];
    let mut scalars = [0; TEXT];
    let mut positions = [0; POSITIONS];
    let mut adding = Adding {
        pool,
        scalars: &mut scalars,
        positions: &mut positions,
        lines: 0,
    };
    read_lines(input, &mut row, &mut adding)?;
    write_words(output, adding.pool)
}

// Writes the image of the pool's words.
fn write_words<W: Write>(output: &mut W, pool: &[u32]) -> Result<(), Stop> {
    let mut image = [0u8; IMAGE];
    match write_image(pool, &mut image) {
        Ok(n) => {
            write_whole(output, front(&image, n))?;
            Ok(())
        }
        Err(refusal) => Err(Stop::Image(refusal)),
    }
}
