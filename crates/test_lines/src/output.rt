// Answers, as they are written to standard output.
ghost use Rattle.std.specs.Prelude.{IsOk};

use refusal::Refusal;
use std::fmt::{Display, Formatter, Write};
use std::{fmt, io, str};

// So many equal cells, or more, are written as one cell with their count.
const RUN: usize = 4;

const HEX: &[u8; 16] = b"0123456789abcdef";

// So many bytes of a row are written at once.
const GATHERED: usize = 4096;

// A runtime that writes each piece of a text by itself, and passes over a write that fails: the
// pieces behind it are written all the same.
#[derive(Clone, Copy)]
pub struct Passing<R>(pub R);

impl<R: Print> Print for Passing<R> {
    fn print<D: Display + Drop>(&self, value: D) -> io::Result<()>
        ensures { IsOk result }
    {
        let mut pieces = Pieces(&self.0);
        let _ = write!(pieces, "{value}");
        Ok(())
    }

    fn println<D: Display + Drop>(&self, value: D) -> io::Result<()>
        ensures { IsOk result }
    {
        let _ = self.print(value);
        self.write_all(b"\n")
    }

    fn write_all(&self, bytes: &[u8]) -> io::Result<()>
        ensures { IsOk result }
    {
        let _ = self.0.write_all(bytes);
        Ok(())
    }
}

// Where a text goes piece by piece.
#[derive(Clone, Copy)]
struct Pieces<'a, R>(&'a R);

impl<R: Print> Write for Pieces<'_, R> {
    fn write_str(&mut self, s: &str) -> fmt::Result
        ensures { IsOk result }
    {
        let _ = self.0.write_all(s.as_bytes());
        Ok(())
    }
}

// What cannot be read leaves this in the answer.
pub fn unread(rt: &impl Print) {
    let _ = print!(rt; "?");
}

// The first n cells of row, or all of it where there are fewer.
pub fn first<T>(row: &[T], n: usize) -> &[T] {
    row.get(..n).unwrap_or(row)
}

// A refusal: `! number detail`.
#[derive(Clone, Copy)]
pub struct Refused(pub Refusal);

impl Display for Refused {
    fn fmt<W: Write>(&self, f: &mut Formatter<W>) -> fmt::Result {
        write!(f, "! {} {}", self.0.number(), self.0.detail())
    }
}

// A report, or a refusal as `!number.detail`.
#[derive(Clone, Copy)]
pub struct Told(pub Result<usize, Refusal>);

impl Display for Told {
    fn fmt<W: Write>(&self, f: &mut Formatter<W>) -> fmt::Result {
        match self.0 {
            Ok(n) => write!(f, "{n}"),
            Err(r) => write!(f, "!{}.{}", r.number(), r.detail()),
        }
    }
}

// A value whose pieces are gathered, and handed on where the room for them is full and at the end.
#[derive(Clone, Copy)]
pub struct Gathered<T>(pub T);

impl<T: Display> Display for Gathered<T> {
    fn fmt<W: Write>(&self, f: &mut Formatter<W>) -> fmt::Result {
        let mut waiting = Waiting {
            bytes: [0; GATHERED],
            used: 0,
            f,
        };
        write!(waiting, "{}", self.0)?;
        waiting.flush()
    }
}

// The pieces that wait, at the front of `bytes`, and where they go.
#[derive(Drop)]
struct Waiting<'a, W> {
    bytes: [u8; GATHERED],
    used: usize,
    f: &'a mut Formatter<W>,
}

impl<W: Write> Waiting<'_, W> {
    fn flush(&mut self) -> fmt::Result {
        let waiting = str::from_utf8(first(&self.bytes, self.used));
        self.used = 0;
        self.f.write_str(waiting.map_err(|_| fmt::Error)?)
    }
}

impl<W: Write> Write for Waiting<'_, W> {
    fn write_str(&mut self, s: &str) -> fmt::Result {
        for b in s.as_bytes() {
            if self.used == GATHERED {
                self.flush()?;
            }
            if let Some(cell) = self.bytes.get_mut(self.used) {
                *cell = *b;
                self.used += 1;
            }
        }
        Ok(())
    }
}

// The items of a row with a mark between them, `-` for none.
#[derive(Clone, Copy)]
pub struct Joined<'a, T>(pub &'a [T], pub char);

impl<T: Display> Display for Joined<'_, T> {
    fn fmt<W: Write>(&self, f: &mut Formatter<W>) -> fmt::Result {
        write!(f, "{}", Gathered(Each(self.0, self.1)))
    }
}

// The same, each item and each mark a piece of its own.
#[derive(Clone, Copy)]
pub struct Each<'a, T>(pub &'a [T], pub char);

impl<T: Display> Display for Each<'_, T> {
    fn fmt<W: Write>(&self, f: &mut Formatter<W>) -> fmt::Result {
        if self.0.is_empty() {
            return write!(f, "-");
        }
        for (i, x) in self.0.iter().enumerate() {
            if i > 0 {
                f.write_char(self.1)?;
            }
            write!(f, "{x}")?;
        }
        Ok(())
    }
}

// The cells of a row by pairs with a colon, and a mark between two pairs; `-` for none.
#[derive(Clone, Copy)]
pub struct Pairs<'a>(pub &'a [u32], pub char);

impl Display for Pairs<'_> {
    fn fmt<W: Write>(&self, f: &mut Formatter<W>) -> fmt::Result {
        if self.0.is_empty() {
            return write!(f, "-");
        }
        for (i, pair) in self.0.chunks(2).enumerate() {
            if i > 0 {
                f.write_char(self.1)?;
            }
            write!(f, "{}", Each(pair, ':'))?;
        }
        Ok(())
    }
}

// The cells of a row in hexadecimal, joined by `.`, four or more equal ones as `cell*count`, `-` for
// none.
#[derive(Clone, Copy)]
pub struct Cells<'a>(pub &'a [u32]);

impl Display for Cells<'_> {
    fn fmt<W: Write>(&self, f: &mut Formatter<W>) -> fmt::Result {
        write!(f, "{}", Gathered(Runs(self.0)))
    }
}

#[derive(Clone, Copy)]
struct Runs<'a>(&'a [u32]);

impl Display for Runs<'_> {
    fn fmt<W: Write>(&self, f: &mut Formatter<W>) -> fmt::Result {
        if self.0.is_empty() {
            return write!(f, "-");
        }
        for (i, run) in self.0.chunk_by(|a, b| a == b).enumerate() {
            if i > 0 {
                f.write_char('.')?;
            }
            write_run(f, run)?;
        }
        Ok(())
    }
}

// Equal cells: as one with their count where they are many, else each.
fn write_run<W: Write>(f: &mut Formatter<W>, run: &[u32]) -> fmt::Result {
    if run.len() >= RUN {
        return write!(f, "{:X}*{}", run[0], run.len());
    }
    for (i, x) in run.iter().enumerate() {
        if i > 0 {
            f.write_char('.')?;
        }
        write!(f, "{x:X}")?;
    }
    Ok(())
}

// Bytes in hexadecimal, two digits each, which are one piece.
#[derive(Clone, Copy)]
pub struct Bytes<'a>(pub &'a [u8]);

impl Display for Bytes<'_> {
    fn fmt<W: Write>(&self, f: &mut Formatter<W>) -> fmt::Result {
        for b in self.0 {
            let digits = [HEX[(b / 16) as usize], HEX[(b % 16) as usize]];
            f.write_str(str::from_utf8(&digits).map_err(|_| fmt::Error)?)?;
        }
        Ok(())
    }
}
