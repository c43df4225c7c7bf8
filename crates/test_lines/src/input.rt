// The input, and the parts between its marks.
ghost use Rattle.std.specs.Prelude.{◌≡◌, ℕ, ◌+◌, ◌-◌, ◌≤◌, MatchOption, length, take, drop, slice_index};
ghost use Rattle.std.specs.Iterator.{at_most};
ghost use Rattle.std.specs.Io.KnownBytes.{Consumes};
ghost use Rattle.test_lines.specs.Marks.{mark_at};
ghost use Rattle.io.specs.Counts.{IsPrefixLen};

use crate::output::{Passing, unread};
use std::io;
use std::io::Read;

// What a program of test vectors does with a line of its input.
pub trait Answers {
    // Writes the answer to the line, without the end of a line.
    fn answer(&mut self, rt: &impl Print, line: &[u8]) -> io::Result<()>;
}

// Reads an input into buffer and writes a line with the answer for each of its lines. A write that
// fails is passed over.
pub fn replay<R: Read, A: Answers>(
    rt: &impl Print,
    input: &mut R,
    buffer: &mut [u8],
    answers: &mut A,
) -> io::Result<()>
    ensures { (n : ℕ) × (n ≤ length buffer.new) × Consumes (R.remaining input.old) (R.remaining input.new) (take n buffer.new) }
{
    let n = read_full(input, buffer);
    if n == buffer.len() {
        unread(rt);
    }
    replay_lines(rt, &buffer[..n], answers)
}

// Writes a line with the answer for each line of a text. A write that fails is passed over: the
// pieces of the answer behind it are written all the same, and the next line is answered.
pub fn replay_lines<A: Answers>(rt: &impl Print, text: &[u8], answers: &mut A) -> io::Result<()> {
    let passing = Passing(rt);
    for line in parts_of(text, b'\n') {
        let _ = answers.answer(&passing, line);
        let _ = print!(passing; "\n");
    }
    Ok(())
}

// Reads until buffer is full, the input ends or a read fails, and answers how many bytes it put at
// the front of buffer: those, and no others, are gone from the input.
pub fn read_full<R: Read>(input: &mut R, buffer: &mut [u8]) -> usize
    ensures size { IsPrefixLen result buffer.new }
    ensures read { Consumes (R.remaining input.old) (R.remaining input.new) (take result buffer.new) }
{
    let mut done = 0;
    // Kept: (3) a read says how far it came, so no iterator goes over the buffer.
    while done < buffer.len() {
        match input.read(&mut buffer[done..]) {
            Ok(0) => return done,
            Ok(n) => done += n,
            Err(_) => return done,
        }
    }
    done
}

// What stands before the first mark of a text, and what stands behind it; all and nothing where it
// has no mark.
pub fn cut_at(text: &[u8], mark: u8) -> (&[u8], &[u8])
    ensures before { result.0.now ≡ take (mark_at text.now mark) text.now }
    ensures behind { result.1.now ≡ drop (mark_at text.now mark + 1) text.now }
    ensures shorter { length result.1.now ≤ length text.now - 1 }
{
    let end = mark_at(text, mark);
    if end < text.len() {
        return (&text[..end], &text[end + 1..]);
    }
    (text, &text[end..])
}

// Where the first mark of a text stands; its end, where it has none.
fn mark_at(text: &[u8], mark: u8) -> usize
    ensures place { result ≡ mark_at text.now mark }
    ensures bound { result ≤ length text.now }
{
    text.iter().take_while(|b| **b != mark).count()
}

// The parts of a text between its marks. A mark at the end has no part behind it.
#[derive(Clone, Copy)]
pub struct Parts<'a> {
    pub rest: &'a [u8],
    pub mark: u8,
}

pub fn parts_of(text: &[u8], mark: u8) -> Parts<'_>
    ensures rest { result.rest.now ≡ text.now }
    ensures mark { result.mark ≡ mark }
{
    Parts { rest: text, mark }
}

impl<'a> Iterator for Parts<'a> {
    type Item = &'a [u8];

    ghost next_gives = { λ s r t. MatchOption r (length s.rest.now ≡ 0) (λ x. (x.now ≡ take (mark_at s.rest.now s.mark) s.rest.now) × (t.rest.now ≡ drop (mark_at s.rest.now s.mark + 1) s.rest.now) × (t.mark ≡ s.mark)) };

    ghost remaining = { λ s. at_most (length s.rest.now) };

    fn next(&mut self) -> Option<&'a [u8]> {
        if self.rest.is_empty() {
            return None;
        }
        let (part, behind) = cut_at(self.rest, self.mark);
        self.rest = behind;
        Some(part)
    }
}

// The k-th field of a line, the first is 0; empty where there is none.
pub fn field(line: &[u8], k: usize) -> &[u8] {
    line.split(|b| *b == b'\t').nth(k).unwrap_or(&[])
}

// The first byte of text, 0 where it has none, and the text without it.
pub fn opened(text: &[u8]) -> (u8, &[u8])
    ensures first { result.0 ≡ slice_index text.now 0 }
    ensures rest { result.1.now ≡ drop 1 text.now }
{
    match text {
        [] => (0, text),
        [first, rest @ ..] => (*first, rest),
    }
}
