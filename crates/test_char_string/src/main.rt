// Replays the test vectors of `utf8`, `char_string` and `char_string_view`: a line with the answer
// for each line of standard input.
//
// The rows of a decoding are lent full of leftovers. Where it leaves a cell otherwise than
// documents 01 and 02 say, a `?` is written.
#![tactic(auto)]

mod places;
mod views;

ghost use Rattle.std.specs.Prelude.{◌≤◌, length};

use std::{fmt, io};
use test_lines::{Answers, Cells, Refused, field, lent, number, read_cells, replay};

const INPUT: usize = 524288;

const BYTES: usize = 300000;

const CELLS: usize = 65540;

fn main(rt: HostRuntime) {
    let mut input = [0u8; INPUT];
    let mut bytes = [0u8; BYTES];
    let mut cells = [0u32; CELLS];
    let mut positions = [0u32; CELLS];
    let mut rows = Rows {
        bytes: &mut bytes,
        cells: &mut cells,
        positions: &mut positions,
    };
    let _ = replay(&rt, &mut rt.stdin(), &mut input, &mut rows);
}

#[derive(Drop)]
struct Rows<'a> {
    bytes: &'a mut [u8],
    cells: &'a mut [u32],
    positions: &'a mut [u32],
}

impl Answers for Rows<'_> {
    fn answer(&mut self, rt: &impl Print, line: &[u8]) -> io::Result<()> {
        match field(line, 0) {
            b"decode" => self.decode(rt, line),
            b"endbytes" => self.ends_in_bytes(rt, line),
            b"end_in_bytes" => self.end_in_row(rt, line),
            b"trim" => self.trim(rt, line),
            b"rspace" => self.rspace(rt, line),
            b"scalars" => self.scalars(rt, line),
            b"text" => self.text(rt, line),
            b"part" => self.part(rt, line),
            b"view" => self.view(rt, line),
            b"view_part" => self.view_part(rt, line),
            b"sub_view" => self.sub_view(rt, line),
            b"word" => self.word(rt, line),
            _ => print!(rt; "?"),
        }
    }
}

// A number, or a word where there is none.
#[derive(Clone, Copy)]
struct Or(Option<usize>, &'static str);

impl fmt::Display for Or {
    fn fmt<W: fmt::Write>(&self, f: &mut fmt::Formatter<W>) -> fmt::Result {
        match self.0 {
            Some(n) => write!(f, "{n}"),
            None => write!(f, "{}", self.1),
        }
    }
}

impl Rows<'_> {
    // trim scalars => ok start end
    fn trim(&mut self, rt: &impl Print, line: &[u8]) -> io::Result<()> {
        let n = read_cells(rt, field(line, 1), self.cells);
        let s = char_string_trim::trim(&self.cells[..n]);
        print!(rt; "ok {} {}", s.start, s.end)
    }

    // rspace scalars => ok index, or ok none
    fn rspace(&mut self, rt: &impl Print, line: &[u8]) -> io::Result<()> {
        let n = read_cells(rt, field(line, 1), self.cells);
        let space = char_string_last_space::rfind_space_char_index(&self.cells[..n]);
        print!(rt; "ok {}", Or(space, "none"))
    }

    // scalars cells => ok index of the first cell that is no scalar value, or ok none
    fn scalars(&mut self, rt: &impl Print, line: &[u8]) -> io::Result<()> {
        let n = read_cells(rt, field(line, 1), self.cells);
        let bad = char_string_scalars::first_non_scalar(&self.cells[..n]);
        print!(rt; "ok {}", Or(Some(bad).filter(|k| *k < n), "none"))
    }

    // text cells => ok n
    fn text(&mut self, rt: &impl Print, line: &[u8]) -> io::Result<()> {
        let n = read_cells(rt, field(line, 1), self.cells);
        match char_string_scalars::check_text(&self.cells[..n]) {
            Ok(count) => print!(rt; "ok {count}"),
            Err(r) => print!(rt; "{}", Refused(r)),
        }
    }

    // word scalars => ok the trimmed scalars
    fn word(&mut self, rt: &impl Print, line: &[u8]) -> io::Result<()> {
        let n = read_cells(rt, field(line, 1), self.cells);
        print!(rt; "ok {}", Cells(char_string_trim::trimmed(&self.cells[..n])))
    }

    // view n, start, end, index, from, to => ok length, character at index or none, start and end of
    //   the sub-view
    fn view(&mut self, rt: &impl Print, line: &[u8]) -> io::Result<()> {
        count_up(self.cells);
        let n = lent(rt, field(line, 1), self.cells.len());
        let start = number(rt, field(line, 2));
        let end = number(rt, field(line, 3));
        tell_view(rt, line, &self.cells[..n], start, end)
    }

    // part n, start, end => ok right(0/1) start length
    fn part(&mut self, rt: &impl Print, line: &[u8]) -> io::Result<()> {
        count_up(self.cells);
        let n = lent(rt, field(line, 1), self.cells.len());
        let start = number(rt, field(line, 2));
        let end = number(rt, field(line, 3));
        let text = &self.cells[..n];
        tell_part(
            rt,
            text,
            start,
            end,
            char_string::substring(text, start, end),
        )
    }
}

fn tell_view(
    rt: &impl Print,
    line: &[u8],
    text: &[u32],
    start: usize,
    end: usize,
) -> io::Result<()> {
    print!(rt; "ok {} ", char_string::chars_len(text, start, end))?;
    let index = number(rt, field(line, 4));
    let found = char_string::get_char_at(text, start, end, index);
    print!(rt; "{} ", shown(found))?;
    let from = number(rt, field(line, 5));
    let to = number(rt, field(line, 6));
    let s = char_string::sub_view(text, start, end, from, to);
    print!(rt; "{} {}", s.start, s.end)
}

fn tell_part(
    rt: &impl Print,
    text: &[u32],
    start: usize,
    end: usize,
    part: &[u32],
) -> io::Result<()> {
    let (right, empty) = if char_string::is_substring(text, start, end) {
        ("1 ", start)
    } else {
        ("0 ", 0)
    };
    let at = part.first().map_or(empty, |x| *x as usize);
    print!(rt; "ok {right}{at} {}", part.len())
}

// A character as its number.
fn shown(c: Option<u32>) -> Or {
    Or(c.map(|x| x as usize), "none")
}

// Each cell is its own index, so that a part's first cell tells where the part starts.
fn count_up(cells: &mut [u32]) {
    for (i, cell) in cells.iter_mut().enumerate() {
        *cell = (i & 0xFFFF_FFFF) as u32;
    }
}
