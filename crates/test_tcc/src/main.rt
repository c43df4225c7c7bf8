// Replays the test vectors of `tcc`: a line with the answer for each line of standard input.
#![tactic(auto)]

ghost use Rattle.std.specs.Prelude.{◌≤◌, length};

use std::io;
use test_lines::{Answers, Cells, Joined, Refused, field, first, lent, read_cells, replay};

const INPUT: usize = 524288;

const CELLS: usize = 65540;

// What a lent row holds before the call.
const BEFORE: u32 = 7;

fn main(rt: HostRuntime) {
    let mut input = [0u8; INPUT];
    let mut text = [0u32; CELLS];
    let mut out = [0u32; CELLS];
    let mut rows = Rows {
        text: &mut text,
        out: &mut out,
    };
    let _ = replay(&rt, &mut rt.stdin(), &mut input, &mut rows);
}

#[derive(Drop)]
struct Rows<'a> {
    text: &'a mut [u32],
    out: &'a mut [u32],
}

impl Answers for Rows<'_> {
    fn answer(&mut self, rt: &impl Print, line: &[u8]) -> io::Result<()> {
        match field(line, 0) {
            b"clusters" => self.clusters(rt, line),
            b"last" => self.last(rt, line),
            b"row" => self.row(rt, line),
            b"flags" => self.flags(rt, line),
            _ => print!(rt; "?"),
        }
    }
}

impl Rows<'_> {
    // clusters scalars, out cells => ok ends
    fn clusters(&mut self, rt: &impl Print, line: &[u8]) -> io::Result<()> {
        let (text, out) = (&mut *self.text, &mut *self.out);
        let n = read_cells(rt, field(line, 1), text);
        let room = lent(rt, field(line, 2), out.len());
        match tcc::tcc_pos(&text[..n], &mut out[..room]) {
            Ok(count) => print!(rt; "ok {}", Joined(first(out, count), ',')),
            Err(r) => print!(rt; "{}", Refused(r)),
        }
    }

    // last scalars, out cells => ok number of ends, the last
    fn last(&mut self, rt: &impl Print, line: &[u8]) -> io::Result<()> {
        let (text, out) = (&mut *self.text, &mut *self.out);
        let n = read_cells(rt, field(line, 1), text);
        let room = lent(rt, field(line, 2), out.len());
        match tcc::tcc_pos(&text[..n], &mut out[..room]) {
            Ok(count) => {
                let last = first(out, count).last().copied().unwrap_or(0);
                print!(rt; "ok {count} {last}")
            }
            Err(r) => print!(rt; "{}", Refused(r)),
        }
    }

    // row scalars, out cells => the whole row after the call, each cell 7 before it
    fn row(&mut self, rt: &impl Print, line: &[u8]) -> io::Result<()> {
        let (text, out) = (&mut *self.text, &mut *self.out);
        let n = read_cells(rt, field(line, 1), text);
        let room = lent(rt, field(line, 2), out.len());
        let row = &mut out[..room];
        row.fill(BEFORE);
        let mark = match tcc::tcc_pos(&text[..n], row) {
            Ok(_) => "ok ",
            Err(_) => "! ",
        };
        print!(rt; "{mark}{}", Cells(row))
    }

    // flags scalars, row cells => the whole row after the call, each cell 7 before it
    fn flags(&mut self, rt: &impl Print, line: &[u8]) -> io::Result<()> {
        let (text, out) = (&mut *self.text, &mut *self.out);
        let n = read_cells(rt, field(line, 1), text);
        let room = lent(rt, field(line, 2), out.len());
        if room <= n {
            return print!(rt; "?");
        }
        let row = &mut out[..room];
        row.fill(BEFORE);
        tcc::tcc_flags(&text[..n], row);
        print!(rt; "ok {}", Cells(row))
    }
}
