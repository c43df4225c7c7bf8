// Standard input and output of a line program, at any reader and any writer.
//   read_some    reads once
//   read_all     reads to the end, and hands a program each part
//   read_lines   reads to the end, and hands a program each line
//   write_whole  writes all of a text
// A call that was interrupted, or that would have had to wait, is tried again; one that fails for
// another reason is a `Failure`. A proved loop has to end: each has more turns than any run uses up.
#![tactic(auto)]

ghost use Rattle.std.specs.Prelude.{◌≡◌, ℕ, ◌≤◌, List, length, take, IfOk, ⊤};
ghost use Rattle.std.specs.Io.KnownBytes.{Appends, Consumes, IsAtEnd};
ghost use Rattle.sheet_io.specs.Handing.{Handed};
ghost use Rattle.sheet_io.specs.Reading.{ReadOnce};

use sheet_bytes::{front, keep, line_end};
use std::io::{Error, ErrorKind, Read, Write};
use std::{fmt, str, thread};

// Why a program stops.
#[derive(Drop)]
pub enum Failure {
    // A read of standard input failed.
    Reading(Error),
    // A write to standard output failed.
    Writing(Error),
    // A write to standard output took no byte.
    NothingTaken,
    // A loop used up its turns.
    NoTurnLeft,
}

// As a line on standard error says it, behind the program's name: an error by the system's words.
impl fmt::Display for Failure {
    fn fmt<W: fmt::Write>(&self, f: &mut fmt::Formatter<W>) -> fmt::Result {
        match self {
            Failure::Reading(error) => {
                f.write_str("reading standard input: ")?;
                write_words(f, error)
            }
            Failure::Writing(error) => {
                f.write_str("writing standard output: ")?;
                write_words(f, error)
            }
            Failure::NothingTaken => f.write_str("writing standard output: nothing was taken"),
            Failure::NoTurnLeft => f.write_str("no turn is left"),
        }
    }
}

// What std puts between the system's words for an error and its number.
const NUMBER: &[u8] = b" (os error ";

// The system's words for an error.
fn write_words<W: fmt::Write>(f: &mut fmt::Formatter<W>, error: &Error) -> fmt::Result {
    let mut line = [0u8; 320];
    let mut rest = &mut line[..];
    let _ = write!(rest, "{error}");
    let Some(n) = line.windows(NUMBER.len()).position(|w| w == NUMBER) else {
        return write!(f, "{error}");
    };
    match str::from_utf8(&line[..n]) {
        Ok(words) => f.write_str(words),
        Err(_) => write!(f, "{error}"),
    }
}

// Reads once.
pub fn read_some<R: Read>(input: &mut R, buffer: &mut [u8]) -> Result<usize, Failure>
    ensures { ReadOnce (R.remaining input.old) (R.remaining input.new) result buffer.new }
{
    for _ in 0..u64::MAX {
        match input.read(buffer) {
            Ok(n) => return Ok(n),
            Err(error) => {
                if !again(&error) {
                    return Err(Failure::Reading(error));
                }
            }
        }
    }
    Err(Failure::NoTurnLeft)
}

// What a program does with its standard input.
pub trait Program {
    // Why it stops before the end of its input.
    type Stop: From<Failure> + Drop;

    // What the program becomes by the bytes that it takes.
    ghost takes: { Self → List ℕ → Self → Type 0 };

    // Does what is to be done with the next bytes.
    fn take(&mut self, bytes: &[u8]) -> Result<(), Self::Stop>
        ensures { IfOk result (λ _. takes self.old bytes.now self.new) };
}

// Reads to the end of the input, and hands the program each part. `Ok` says that nothing is left,
// and that the program was handed what was read, all of it and in order.
pub fn read_all<R: Read, G: Program>(input: &mut R, program: &mut G) -> Result<(), G::Stop>
    ensures at_end { IfOk result (λ _. IsAtEnd (R.remaining input.new)) }
    ensures handed { IfOk result (λ _. (bytes : List ℕ)
        × Consumes (R.remaining input.old) (R.remaining input.new) bytes
        × Handed G.takes program.old bytes program.new) }
{
    let mut buffer = [0u8; 65536];
    for _ in 0..u64::MAX {
        let n = read_some(input, &mut buffer)?;
        if n == 0 {
            return Ok(());
        }
        program.take(&buffer[..n])?;
    }
    Err(G::Stop::from(Failure::NoTurnLeft))
}

// What a program does with the lines of its input.
pub trait Lines {
    // Why it stops before the end of its input.
    type Stop: From<Failure> + Drop;

    // Does what is to be done with the next line, which stands without its line feed.
    fn take_line(&mut self, line: &[u8]) -> Result<(), Self::Stop>;
}

// A program that takes parts of the input as lines: `kept` bytes of a line that goes on stand at
// the front of `row`.
#[derive(Drop)]
struct Joined<'a, 'b, L> {
    lines: &'a mut L,
    row: &'b mut [u8],
    kept: usize,
}

impl<'a, 'b, L: Lines> Program for Joined<'a, 'b, L> {
    type Stop = L::Stop;

    ghost takes = { λ s bytes t. ⊤ };

    fn take(&mut self, bytes: &[u8]) -> Result<(), L::Stop> {
        let Joined { lines, row, kept } = self;
        let mut rest = bytes;
        while !rest.is_empty() {
            let (part, more) = rest.split_at(line_end(rest));
            *kept = keep(row, *kept, part);
            let Some((_, next)) = more.split_first() else {
                return Ok(());
            };
            lines.take_line(front(row, *kept))?;
            *kept = 0;
            rest = next;
        }
        Ok(())
    }
}

// Reads to the end of the input, and hands the program each line, of which as much is kept as
// `row` has room for. The last one is what stands behind the last line feed, even if that is
// nothing. `Ok` says that nothing is left.
pub fn read_lines<R: Read, L: Lines>(
    input: &mut R,
    row: &mut [u8],
    lines: &mut L,
) -> Result<(), L::Stop>
    ensures { IfOk result (λ _. IsAtEnd (R.remaining input.new)) }
{
    let mut joined = Joined {
        lines,
        row,
        kept: 0,
    };
    read_all(input, &mut joined)?;
    let Joined { lines, row, kept } = joined;
    lines.take_line(front(row, kept))
}

// Writes all of a text, or stops at the first write that fails.
pub fn write_whole<W: Write>(output: &mut W, text: &[u8]) -> Result<(), Failure>
    ensures whole { IfOk result (λ _. Appends (W.contents output.old) (W.contents output.new) text.now) }
    ensures front { (n : ℕ) × (n ≤ length text.now)
        × Appends (W.contents output.old) (W.contents output.new) (take n text.now) }
{
    let mut at = 0;
    for _ in 0..u64::MAX {
        let rest = &text[at..];
        if rest.is_empty() {
            return Ok(());
        }
        match output.write(rest) {
            Ok(0) => return Err(Failure::NothingTaken),
            Ok(put) => {
                at += put;
                continue;
            }
            Err(error) => {
                if !again(&error) {
                    return Err(Failure::Writing(error));
                }
            }
        }
    }
    Err(Failure::NoTurnLeft)
}

// Whether the call that has just failed is to be tried again.
fn again(error: &Error) -> bool {
    match error.kind() {
        ErrorKind::Interrupted => true,
        ErrorKind::WouldBlock => {
            thread::yield_now();
            true
        }
        _ => false,
    }
}
