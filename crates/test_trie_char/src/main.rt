// Replays the test vectors of `trie_char`: a line with the answer for each line of standard input.
#![tactic(auto)]

ghost use Rattle.std.specs.Prelude.{◌≤◌, length};

use refusal::Refusal;
use std::io;
use test_lines::{
    Answers, Cells, Joined, Refused, Told, field, first, lent, opened, parts_of, read_cells, replay,
};
use test_words::{hold, read_class, read_word};
use trie_char_read::{amount_of_words, contain, prefix_lengths};

const INPUT: usize = 393216;

const POOL: usize = 65536;

const CELLS: usize = 100000;

const OUT: usize = 256;

// A cell that no dictionary has.
const NO_CELL: u32 = u32::MAX;

fn main(rt: HostRuntime) {
    let mut input = [0u8; INPUT];
    let mut pool = [0u32; POOL];
    let mut cells = [0u32; CELLS];
    let mut out = [0u32; OUT];
    let mut rows = Rows {
        pool: &mut pool,
        cells: &mut cells,
        out: &mut out,
    };
    let _ = replay(&rt, &mut rt.stdin(), &mut input, &mut rows);
}

#[derive(Drop)]
struct Rows<'a> {
    pool: &'a mut [u32],
    cells: &'a mut [u32],
    out: &'a mut [u32],
}

impl Answers for Rows<'_> {
    fn answer(&mut self, rt: &impl Print, line: &[u8]) -> io::Result<()> {
        match field(line, 0) {
            b"dict" => self.dict(rt, line),
            b"prefix" => self.prefix(rt, line),
            b"pool" => self.given(rt, line),
            _ => print!(rt; "?"),
        }
    }
}

impl Rows<'_> {
    // dict pool cells, script => ok answers
    fn dict(&mut self, rt: &impl Print, line: &[u8]) -> io::Result<()> {
        let (pool, cells, out) = (&mut *self.pool, &mut *self.cells, &mut *self.out);
        let n = lent(rt, field(line, 1), pool.len());
        pool.fill(NO_CELL);
        print!(rt; "ok ")?;
        let pool = &mut pool[..n];
        script(rt, field(line, 2), pool, cells, out)
    }

    // prefix words, scalars, out cells => ok lengths
    fn prefix(&mut self, rt: &impl Print, line: &[u8]) -> io::Result<()> {
        let (pool, cells, out) = (&mut *self.pool, &mut *self.cells, &mut *self.out);
        pool.fill(NO_CELL);
        let held = hold(rt, field(line, 1), cells, pool);
        let n = read_cells(rt, field(line, 2), cells);
        let room = lent(rt, field(line, 3), out.len());
        let (pool, text) = (first(pool, held), &cells[..n]);
        let out = &mut out[..room];
        match prefix_lengths(pool, text, out) {
            Ok(count) => print!(rt; "ok {}", Joined(first(out, count), ',')),
            Err(r) => print!(rt; "{}", Refused(r)),
        }
    }

    // pool cells => ok words, or a refusal
    fn given(&mut self, rt: &impl Print, line: &[u8]) -> io::Result<()> {
        let n = read_cells(rt, field(line, 1), self.pool);
        match amount_of_words(&self.pool[..n]) {
            Ok(words) => print!(rt; "ok {words}"),
            Err(r) => print!(rt; "{}", Refused(r)),
        }
    }
}

// Steps joined by `;`: each is an operator and what it is given.
fn script(
    rt: &impl Print,
    steps: &[u8],
    pool: &mut [u32],
    cells: &mut [u32],
    out: &mut [u32],
) -> io::Result<()> {
    for (i, text) in parts_of(steps, b';').enumerate() {
        if i > 0 {
            print!(rt; ";")?;
        }
        step(rt, text, pool, cells, out)?;
    }
    Ok(())
}

fn step(
    rt: &impl Print,
    text: &[u8],
    pool: &mut [u32],
    cells: &mut [u32],
    out: &mut [u32],
) -> io::Result<()> {
    let (op, given) = opened(text);
    match op {
        b'f' => {
            let answer = trie_char::fresh(pool);
            print!(rt; "{}", Told(answer))
        }
        b'#' => print!(rt; "{}", Told(amount_of_words(pool))),
        b'n' => tell_nodes(rt, pool),
        b'c' => print!(rt; "{}", Cells(pool)),
        _ => {
            let n = read_word(rt, given, cells);
            word_step(rt, op, pool, &cells[..n], read_class(rt, given), out)
        }
    }
}

// Only an add gives a class.
fn word_step(
    rt: &impl Print,
    op: u8,
    pool: &mut [u32],
    word: &[u32],
    class: Option<u16>,
    out: &mut [u32],
) -> io::Result<()> {
    match (op, class) {
        (b'+', Some(class)) => {
            let answer = trie_char::add_class(pool, word, class);
            print!(rt; "{}", Told(answer))
        }
        (b'+', None) => {
            let answer = trie_char::add(pool, word);
            print!(rt; "{}", Told(answer))
        }
        (b'-', None) => {
            let answer = trie_char::remove(pool, word);
            print!(rt; "{}", Told(answer))
        }
        (b'?', None) => tell_word(rt, contain(pool, word)),
        (b'p', None) => match prefix_lengths(pool, word, out) {
            Ok(n) => print!(rt; "{}", Joined(first(out, n), '.')),
            Err(r) => print!(rt; "{}", Told(Err(r))),
        },
        _ => print!(rt; "?"),
    }
}

// Whether the word is held, and its class.
fn tell_word(rt: &impl Print, answer: Result<Option<u16>, Refusal>) -> io::Result<()> {
    match answer {
        Ok(class) => print!(rt; "{}.{}", u8::from(class.is_some()), class.unwrap_or(0)),
        Err(r) => print!(rt; "{}", Told(Err(r))),
    }
}

// The nodes in use, a cell of the root.
fn tell_nodes(rt: &impl Print, pool: &[u32]) -> io::Result<()> {
    match (amount_of_words(pool), pool.first()) {
        (Ok(_), Some(nodes)) => print!(rt; "{nodes}"),
        (Ok(_), None) => Ok(()),
        (Err(r), _) => print!(rt; "{}", Told(Err(r))),
    }
}
