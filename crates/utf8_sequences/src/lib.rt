// One well-formed sequence of UTF-8: how long the one at a place is, and its scalar.
#![tactic(auto)]

mod leads;

ghost use Rattle.std.specs.Prelude.{◌≡◌, true, ◌+◌, ◌<◌, length, get_or, drop};
ghost use Rattle.lists.specs.Scans.{within};
ghost use Rattle.utf8_sequences.specs.Sequences.{size_of};
ghost use Rattle.utf8_sequences.specs.inner.Pieces.{piece_of, FourBytes};

use leads::lead;

// The scalar at a place, and the number of bytes of its sequence.
#[derive(Clone, Copy, Debug, PartialEq, Eq)]
pub struct Piece {
    pub scalar: u32,
    pub size: usize,
}

fn is_trail(b: u8) -> bool
    ensures { result ≡ within 0x80 0xBF b }
{
    0x80 <= b && b <= 0xBF
}

// The length of the well-formed sequence at a place, 0 where there is none.
fn size_at(s: &[u8], at: usize) -> usize
    requires { at < length s.now }
    ensures { result ≡ size_of (drop at s.now) }
{
    let e = lead(s[at]);
    let size = (e / 65536) as usize;
    if s.len() - at < size {
        return 0;
    }
    if size < 2 {
        return size;
    }
    let b = u32::from(s[at + 1]);
    if b < e / 256 % 256 {
        return 0;
    }
    if e % 256 < b {
        return 0;
    }
    if size == 2 {
        return 2;
    }
    if !is_trail(s[at + 2]) {
        return 0;
    }
    if size == 3 {
        return 3;
    }
    if !is_trail(s[at + 3]) {
        return 0;
    }
    4
}

// Whether a character of the Thai block stands at a place that two bytes follow.
pub fn thai_at(s: &[u8], at: usize) -> bool
    requires { at + 2 < length s.now }
    ensures { result ≡ true → 3 ≡ size_of (drop at s.now) }
{
    s[at] == 0xE0 && s[at + 1] / 2 == 0x5C && is_trail(s[at + 2])
}

fn byte(b: u8) -> u32
    ensures { (result ≡ b) × (result < 256) }
{
    b as u32
}

// Four bytes as one number, the first of them lowest. The compiler makes it one read.
fn four(s: &[u8], at: usize) -> u32
    requires { at + 3 < length s.now }
    ensures { FourBytes s.now at result }
{
    let low = byte(s[at]) + byte(s[at + 1]) * 0x100;
    low + byte(s[at + 2]) * 0x10000 + byte(s[at + 3]) * 0x1000000
}

// The bits that tell a character of the Thai block, in four bytes of which it is the first three,
// and what they are there: E0, B8 or B9, and a byte from 80 to BF.
const THAI_BITS: u32 = 0x00C0FEFF;

const THAI: u32 = 0x0080B8E0;

// The same as `thai_at`, where three bytes follow.
pub fn thai_of_four(s: &[u8], at: usize) -> bool
    requires { at + 3 < length s.now }
    ensures { result ≡ true → 3 ≡ size_of (drop at s.now) }
{
    let bits = four(s, at) & THAI_BITS;
    bits == THAI
}

// The length of the sequence at a place where ASCII or a character of the Thai block stands. 0 says
// nothing of what stands there.
fn quick_size(s: &[u8], at: usize) -> usize
    requires { at < length s.now }
    ensures { 0 < result → result ≡ size_of (drop at s.now) }
{
    if s[at] < 0x80 {
        return 1;
    }
    if s.len() - at < 3 {
        return 0;
    }
    if !thai_at(s, at) {
        return 0;
    }
    3
}

// The same as `size_at`, which is asked only where the quick way doesn't tell.
pub fn next_size(s: &[u8], at: usize) -> usize
    requires { at < length s.now }
    ensures { result ≡ size_of (drop at s.now) }
{
    let quick = quick_size(s, at);
    if 0 < quick {
        return quick;
    }
    size_at(s, at)
}

// What the marks of two bytes that are no first ones, 0x80 in each, add to their scalar.
const TRAIL_BITS: u32 = 0x2080;

// The scalar at a place where a well-formed sequence stands that starts as all of Thai do.
pub fn piece_of_e0(s: &[u8], at: usize) -> Piece
    requires nonzero { 0 < size_of (drop at s.now) }
    requires at_value { get_or s.now at 0 ≡ 0xE0 }
    ensures { result ≡ piece_of (drop at s.now) }
{
    let b = u32::from(s[at + 1]);
    let c = u32::from(s[at + 2]);
    Piece {
        scalar: b * 64 + c - TRAIL_BITS,
        size: 3,
    }
}

// The scalar at a place where a well-formed sequence stands: its first byte tells the length.
pub fn piece_at(s: &[u8], at: usize) -> Piece
    requires { 0 < size_of (drop at s.now) }
    ensures { result ≡ piece_of (drop at s.now) }
{
    let a = u32::from(s[at]);
    if a < 0x80 {
        return Piece { scalar: a, size: 1 };
    }
    let b = u32::from(s[at + 1]) % 64;
    if a < 0xE0 {
        return Piece {
            scalar: a % 32 * 64 + b,
            size: 2,
        };
    }
    let c = u32::from(s[at + 2]) % 64;
    if a < 0xF0 {
        return Piece {
            scalar: a % 16 * 4096 + b * 64 + c,
            size: 3,
        };
    }
    let d = u32::from(s[at + 3]) % 64;
    Piece {
        scalar: a % 8 * 262144 + b * 4096 + c * 64 + d,
        size: 4,
    }
}
