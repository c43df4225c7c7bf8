// The steps of a script.
ghost use Rattle.std.specs.Prelude.{◌≤◌, length};

use crate::calls::{Whose, add, amount, held, lengths, read, take, write};
use crate::cuts::{cut_step, plain_ends, reasons_step};
use refusal::Refusal;
use std::io;
use test_lines::{Bytes, Cells, Joined, Told, cut_at, first, number, opened, read_bytes};
use test_rows::{expect_leftovers, smear};
use test_words::{read_class, read_word};
use trie_plants::Plant;

// The lengths of the longest words, and room for one more.
const LENGTHS: usize = 256;

const IMAGE: usize = 8192;

pub fn step(rt: &impl Print, text: &[u8], pool: &mut [u32], cells: &mut [u32]) -> io::Result<()> {
    let (op, given) = opened(text);
    match op {
        b'A' => words_step(rt, Some(Plant::A), given, pool, cells),
        b'B' => words_step(rt, Some(Plant::B), given, pool, cells),
        b'P' => words_step(rt, None, given, pool, cells),
        b'f' => {
            let answer = trie_char::fresh(pool);
            print!(rt; "{}", Told(answer))
        }
        b's' => {
            let (a, behind) = cut_at(given, b'.');
            let limit_a = number(rt, a);
            let limit_b = number(rt, cut_at(behind, b'.').0);
            let answer = trie_plants_change::start(pool, limit_a, limit_b);
            print!(rt; "{}", Told(answer))
        }
        b'c' => print!(rt; "{}", Cells(pool)),
        _ => print!(rt; "?"),
    }
}

// A call on the words of a plant, or of a plain pool.
fn words_step(
    rt: &impl Print,
    whose: Whose,
    text: &[u8],
    pool: &mut [u32],
    cells: &mut [u32],
) -> io::Result<()> {
    let (op, given) = opened(text);
    match op {
        b'i' => write_step(rt, whose, pool),
        b'r' => read_step(rt, whose, given, pool),
        b'=' => plain_ends(rt, whose, given, pool, cells),
        b'x' => cut_step(rt, whose, given, pool, cells),
        b'y' => reasons_step(rt, whose, given, pool, cells),
        b'#' => print!(rt; "{}", Told(amount(whose, pool))),
        _ => {
            let n = read_word(rt, given, cells);
            let class = read_class(rt, given).unwrap_or(0);
            word_step(rt, op, whose, pool, &cells[..n], class)
        }
    }
}

fn word_step(
    rt: &impl Print,
    op: u8,
    whose: Whose,
    pool: &mut [u32],
    word: &[u32],
    class: u16,
) -> io::Result<()> {
    match op {
        b'+' => {
            let answer = add(whose, pool, word, class);
            print!(rt; "{}", Told(answer))
        }
        b'-' => {
            let answer = take(whose, pool, word);
            print!(rt; "{}", Told(answer))
        }
        b'?' => tell_word(rt, held(whose, pool, word)),
        b'p' => tell_lengths(rt, whose, pool, word),
        _ => print!(rt; "?"),
    }
}

// Whether the word is held, and its class.
fn tell_word(rt: &impl Print, answer: Result<Option<u16>, Refusal>) -> io::Result<()> {
    match answer {
        Ok(class) => print!(rt; "{}.{}", u8::from(class.is_some()), class.unwrap_or(0)),
        Err(r) => print!(rt; "{}", Told(Err(r))),
    }
}

fn tell_lengths(rt: &impl Print, whose: Whose, pool: &[u32], text: &[u32]) -> io::Result<()> {
    let mut out = [0u32; LENGTHS];
    match lengths(whose, pool, text, &mut out) {
        Ok(n) => print!(rt; "{}", Joined(first(&out, n), '.')),
        Err(r) => print!(rt; "{}", Told(Err(r))),
    }
}

// image bytes => words
fn read_step(rt: &impl Print, whose: Whose, bytes: &[u8], pool: &mut [u32]) -> io::Result<()> {
    let mut image = [0u8; IMAGE];
    let n = read_bytes(rt, bytes, &mut image);
    let answer = read(whose, pool, &image[..n]);
    print!(rt; "{}", Told(answer))
}

fn write_step(rt: &impl Print, whose: Whose, pool: &[u32]) -> io::Result<()> {
    let mut image = [0u8; IMAGE];
    tell_image(rt, whose, pool, &mut image)
}

// The image of the words, written to a row full of leftovers.
fn tell_image(rt: &impl Print, whose: Whose, pool: &[u32], image: &mut [u8]) -> io::Result<()> {
    smear(image);
    match write(whose, pool, image) {
        Ok(n) => {
            print!(rt; "{}", Bytes(first(image, n)))?;
            expect_leftovers(rt, image, n);
            Ok(())
        }
        Err(r) => {
            expect_leftovers(rt, image, 0);
            print!(rt; "{}", Told(Err(r)))
        }
    }
}
