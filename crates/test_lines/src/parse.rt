// Numbers, cells and bytes, read from the text of a field.
ghost use Rattle.std.specs.Prelude.{◌≤◌, ◌↔◌, IsTrue, length};
ghost use Rattle.io.specs.Counts.{IsPrefixLen};

use crate::input::{cut_at, parts_of};
use crate::output::unread;

// A decimal number. `*`, and any number above the largest, give the largest.
pub fn number(rt: &impl Print, text: &[u8]) -> usize {
    if matches!(text, b"*") {
        return usize::MAX;
    }
    if text.is_empty() {
        unread(rt);
    }
    let mut n = 0usize;
    for b in text {
        n = n.saturating_mul(10).saturating_add(decimal_digit(rt, *b));
    }
    n
}

// The length of a row that is lent, out of one of `most` cells. `*` is as long as needed: all of
// them.
pub fn lent(rt: &impl Print, text: &[u8], most: usize) -> usize
    ensures { result ≤ most }
{
    number(rt, text).min(most)
}

// The front of a row, as far as it is filled.
#[derive(Drop)]
struct Front<'a, T> {
    row: &'a mut [T],
    used: usize,
    ghost fits: { used ≤ length row.now },
}

impl<'a, T: Copy> Front<'a, T> {
    // Puts x behind what is there; whether there was room.
    fn push(&mut self, x: T) -> bool {
        if self.is_full() {
            return false;
        }
        self.row[self.used] = x;
        self.used += 1;
        true
    }

    fn is_full(&self) -> bool
        ensures { IsTrue result ↔ length self.now.row.now ≤ self.now.used }
    {
        self.row.len() <= self.used
    }
}

// What a row is read into: cells or bytes, each in a spelling of its own.
trait Item: Copy {
    // Puts what a run stands for behind what a front holds.
    fn put_run(rt: &impl Print, run: &[u8], front: &mut Front<'_, Self>);
}

// Cells such as `E01.20*3`, `-` for none. They go to the front of row; the answer is how many there
// are.
pub fn read_cells(rt: &impl Print, text: &[u8], row: &mut [u32]) -> usize
    ensures { IsPrefixLen result row.new }
{
    read_row(rt, text, row)
}

// Bytes such as `e0b881*2.61`, `-` for none. They go to the front of row; the answer is how many
// there are.
pub fn read_bytes(rt: &impl Print, text: &[u8], row: &mut [u8]) -> usize
    ensures { IsPrefixLen result row.new }
{
    read_row(rt, text, row)
}

fn read_row<T: Item>(rt: &impl Print, text: &[u8], row: &mut [T]) -> usize
    ensures { result ≤ length row.new }
{
    let most = row.len();
    let mut front = Front { row, used: 0 };
    put_runs(rt, text, &mut front);
    front.used.min(most)
}

fn put_runs<T: Item>(rt: &impl Print, text: &[u8], front: &mut Front<'_, T>) {
    if matches!(text, b"-") {
        return;
    }
    if text.is_empty() {
        unread(rt);
    }
    for run in parts_of(text, b'.') {
        T::put_run(rt, run, front);
    }
}

fn decimal_digit(rt: &impl Print, b: u8) -> usize {
    match b {
        b'0'..=b'9' => usize::from(b - b'0'),
        _ => {
            unread(rt);
            0
        }
    }
}

fn hex_digit(rt: &impl Print, b: u8) -> u8
    ensures { result ≤ 15 }
{
    match b {
        b'0'..=b'9' => b - b'0',
        b'A'..=b'F' => b - b'A' + 10,
        b'a'..=b'f' => b - b'a' + 10,
        _ => {
            unread(rt);
            0
        }
    }
}

// x with one more hexadecimal digit.
fn hex_more(rt: &impl Print, x: u32, b: u8) -> u32 {
    let d = hex_digit(rt, b);
    if 0xFFFFFFF < x {
        unread(rt);
        return x;
    }
    x * 16 + u32::from(d)
}

fn cell(rt: &impl Print, text: &[u8]) -> u32 {
    if text.is_empty() {
        unread(rt);
    }
    let mut x = 0;
    for b in text {
        x = hex_more(rt, x, *b);
    }
    x
}

// What a run repeats, and how often: once where it doesn't say.
fn repeated<'a>(rt: &impl Print, run: &'a [u8]) -> (&'a [u8], usize) {
    let (what, behind) = cut_at(run, b'*');
    if behind.is_empty() {
        return (what, 1);
    }
    (what, number(rt, cut_at(behind, b'*').0))
}

impl Item for u32 {
    fn put_run(rt: &impl Print, run: &[u8], front: &mut Front<'_, u32>) {
        let x = cell(rt, cut_at(run, b'*').0);
        let (_, times) = repeated(rt, run);
        for _ in 0..times {
            if !front.push(x) {
                unread(rt);
                return;
            }
        }
    }
}

impl Item for u8 {
    fn put_run(rt: &impl Print, run: &[u8], front: &mut Front<'_, u8>) {
        let (digits, times) = repeated(rt, run);
        for _ in 0..times {
            if front.is_full() {
                unread(rt);
                return;
            }
            put_bytes(rt, digits, front);
        }
    }
}

fn put_bytes(rt: &impl Print, digits: &[u8], front: &mut Front<'_, u8>) {
    for pair in digits.chunks(2) {
        let [high, low] = pair else {
            unread(rt);
            return;
        };
        if front.is_full() {
            unread(rt);
            return;
        }
        let b = hex_digit(rt, *high) * 16 + hex_digit(rt, *low);
        front.push(b);
    }
}
