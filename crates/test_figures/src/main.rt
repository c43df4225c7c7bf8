// Replays the test vectors of release figures: a line with the answer for each line of standard
// input. A text is four fields of its line: mode, scalars, scratch cells, records of room.
//
// The row of pairs has one cell more than its records take. It and scratch are lent full of
// leftovers. Where a call leaves a cell otherwise than documents 01 and 02 say, a `?` is written.
#![tactic(auto)]

ghost use Rattle.std.specs.Prelude.{◌≤◌, length};

use figures::{feed, feed_refused, join};
use newmm_rules::{Ends, Mode};
use refusal::Refusal;
use std::io;
use test_lines::{
    Answers, Each, Joined, Refused, field, first, lent, number, parts_of, read_cells, replay,
};
use test_rows::{expect_leftovers, expect_zero, mode_of, print_left, scratch_cells, smear};
use test_words::hold;

const INPUT: usize = 589824;

// Words with a node for each of their characters.
const POOL: usize = 16384;

// More than the longest text that is accepted.
const TEXT: usize = 70000;

// Pairs for as many tokens, and a cell more.
const PAIRS: usize = 2001;

const SCRATCH: usize = 16384;

// The most texts of a line.
const TEXTS: usize = 16;

fn main(rt: HostRuntime) {
    let mut input = [0u8; INPUT];
    let _ = replay(&rt, &mut rt.stdin(), &mut input, &mut Texts);
}

#[derive(Drop)]
struct Texts;

impl Answers for Texts {
    fn answer(&mut self, rt: &impl Print, line: &[u8]) -> io::Result<()> {
        match field(line, 0) {
            b"figures" | b"feed" => cut_texts(rt, line),
            b"refused" => refuse(rt, line),
            b"join" => join_two(rt, line),
            _ => print!(rt; "?"),
        }
    }
}

// The rows that the texts of a line are cut with.
#[derive(Drop)]
struct Rows<'a> {
    text: &'a mut [u32],
    pool: &'a mut [u32],
    pairs: &'a mut [u32],
    scratch: &'a mut [u32],
}

// Answers a line with texts, by rows of its own.
fn cut_texts(rt: &impl Print, line: &[u8]) -> io::Result<()> {
    let mut text = [0u32; TEXT];
    let mut pool = [0u32; POOL];
    let mut pairs = [0u32; PAIRS];
    let mut scratch = [0u32; SCRATCH];
    let mut rows = Rows {
        text: &mut text,
        pool: &mut pool,
        pairs: &mut pairs,
        scratch: &mut scratch,
    };
    match field(line, 0) {
        b"figures" => rows.run(rt, line),
        _ => rows.feed_one(rt, line),
    }
}

impl Rows<'_> {
    // figures words, number of texts, the texts => ok figures
    fn run(&mut self, rt: &impl Print, line: &[u8]) -> io::Result<()> {
        let cells = hold(rt, field(line, 1), self.text, self.pool);
        let texts = lent(rt, field(line, 2), TEXTS);
        let mut figures = [0u64; 16];
        for i in 0..texts {
            self.feed_text(rt, line, 3 + 4 * i, cells, &mut figures, false)?;
        }
        print!(rt; "ok {}", Each(&figures, ','))
    }

    // feed words, figures, text => ok pairs edges figures, or the refusal and figures; after 13 what
    // became of scratch before them
    fn feed_one(&mut self, rt: &impl Print, line: &[u8]) -> io::Result<()> {
        let cells = hold(rt, field(line, 1), self.text, self.pool);
        let mut figures = read_figures(rt, field(line, 2));
        self.feed_text(rt, line, 3, cells, &mut figures, true)?;
        print!(rt; " {}", Each(&figures, ','))
    }

    // Kept: (1) whether the text's own answer is shown is a plain yes or no.
    // Feeds the text whose four fields start at the k-th of a line, with the words of the first
    // cells of the pool.
    fn feed_text(
        &mut self,
        rt: &impl Print,
        line: &[u8],
        k: usize,
        cells: usize,
        figures: &mut [u64; 16],
        shown: bool,
    ) -> io::Result<()>
        requires { k ≤ 99 }
    {
        let (text, pool) = (&mut *self.text, &mut *self.pool);
        let (pairs, scratch) = (&mut *self.pairs, &mut *self.scratch);
        let n = read_cells(rt, field(line, k + 1), text);
        let room = scratch_cells(rt, field(line, k + 2), n, scratch.len());
        let records = lent(rt, field(line, k + 3), PAIRS / 2);
        let Some(mode) = mode_of(field(line, k)) else {
            return print!(rt; "?");
        };
        let told = pairs.len().min(2 * records + 1);
        tell_figures(
            rt,
            &text[..n],
            first(pool, cells),
            figures,
            &mut pairs[..told],
            &mut scratch[..room],
            mode,
            shown,
        )
    }
}

fn tell_figures(
    rt: &impl Print,
    text: &[u32],
    pool: &[u32],
    figures: &mut [u64; 16],
    pairs: &mut [u32],
    scratch: &mut [u32],
    mode: Mode,
    shown: bool,
) -> io::Result<()> {
    smear(pairs);
    smear(scratch);
    match feed(figures, text, pool, pairs, scratch, mode) {
        Ok(ends) => show_cut(rt, ends, pairs, scratch, shown),
        Err(r) => show_refused(rt, r, pairs, scratch, shown),
    }
}

fn show_cut(
    rt: &impl Print,
    told: Ends,
    pairs: &[u32],
    scratch: &[u32],
    shown: bool,
) -> io::Result<()> {
    let cells = first(pairs, told.ends.saturating_mul(2));
    expect_zero(rt, scratch);
    expect_leftovers(rt, pairs, cells.len());
    if shown {
        print!(rt; "ok {} {}", Joined(cells, ','), told.edges)?;
    }
    Ok(())
}

fn show_refused(
    rt: &impl Print,
    r: Refusal,
    pairs: &[u32],
    scratch: &[u32],
    shown: bool,
) -> io::Result<()> {
    expect_leftovers(rt, pairs, 0);
    if shown {
        print!(rt; "{}", Refused(r))?;
    }
    match r {
        Refusal::FiguresFull => {
            print!(rt; " ")?;
            print_left(rt, scratch);
        }
        Refusal::OutputTooShort(_) => expect_zero(rt, scratch),
        _ => expect_leftovers(rt, scratch, 0),
    }
    Ok(())
}

// refused figures, number => ok figures, or the refusal and figures
fn refuse(rt: &impl Print, line: &[u8]) -> io::Result<()> {
    let mut figures = read_figures(rt, field(line, 1));
    let number = u32::try_from(number(rt, field(line, 2))).unwrap_or(0);
    let given = feed_refused(&mut figures, number);
    tell_given(rt, given, &figures)
}

// join figures, figures => ok figures, or the refusal and the first figures
fn join_two(rt: &impl Print, line: &[u8]) -> io::Result<()> {
    let mut figures = read_figures(rt, field(line, 1));
    let more = read_figures(rt, field(line, 2));
    let given = join(&mut figures, &more);
    tell_given(rt, given, &figures)
}

fn tell_given(
    rt: &impl Print,
    given: Result<usize, Refusal>,
    figures: &[u64; 16],
) -> io::Result<()> {
    match given {
        Ok(0) => print!(rt; "ok {}", Each(figures, ',')),
        Ok(_) => {
            print!(rt; "?")?;
            print!(rt; "ok {}", Each(figures, ','))
        }
        Err(r) => print!(rt; "{} {}", Refused(r), Each(figures, ',')),
    }
}

// Sixteen figures joined by `,`.
fn read_figures(rt: &impl Print, text: &[u8]) -> [u64; 16] {
    let mut figures = [0u64; 16];
    let mut parts = parts_of(text, b',');
    for figure in figures.iter_mut() {
        *figure = number(rt, parts.next().unwrap_or(&[])) as u64;
    }
    figures
}
