// NON_THAI_PATTERN, as an ordered matcher at the start of a part of a text. Each character is read
// once.
#![tactic(auto)]

ghost use Rattle.std.specs.Prelude.{◌≡◌, Bool, ltb, ℕ, take_while, length};
ghost use Rattle.newmm_rules.specs.NonThai.{is_letter, is_digit, is_thai_digit, is_point, is_blank, group_of, number, line_end, non_thai};

// A class of characters, as the pattern has it in brackets.
trait Class {
    ghost has: { ℕ → Bool };

    fn contains(x: u32) -> bool
        ensures { result ≡ has x };
}

// [-a-zA-Z]
struct Letters;

impl Class for Letters {
    ghost has = { is_letter };

    fn contains(x: u32) -> bool {
        matches!(x, 0x2D | 0x41..=0x5A | 0x61..=0x7A)
    }
}

// [0-9]
struct Digits;

impl Class for Digits {
    ghost has = { is_digit };

    fn contains(x: u32) -> bool {
        matches!(x, 0x30..=0x39)
    }
}

// [๐-๙]
struct ThaiDigits;

impl Class for ThaiDigits {
    ghost has = { is_thai_digit };

    fn contains(x: u32) -> bool {
        matches!(x, 0xE50..=0xE59)
    }
}

// [,\.]
struct Points;

impl Class for Points {
    ghost has = { is_point };

    fn contains(x: u32) -> bool {
        matches!(x, 0x2C | 0x2E)
    }
}

// [ \t]
struct Blanks;

impl Class for Blanks {
    ghost has = { is_blank };

    fn contains(x: u32) -> bool {
        matches!(x, 0x20 | 0x9)
    }
}

// How many characters at the front are of the class.
fn run_length<C: Class>(s: &[u32]) -> usize
    ensures { result ≡ length (take_while C.has s.now) }
{
    s.iter().take_while(|x| C::contains(**x)).count()
}

// A comma or point with the digits behind it, or 0 where none follows.
#[tactic(auto, using(crate::proofs::Matches::run_is_leading, lists::proofs::Scans::leading_inside))]
fn group<D: Class>(s: &[u32]) -> usize
    ensures { result ≡ group_of D.has s.now }
{
    let Some((first, tail)) = s.split_first() else {
        return 0;
    };
    if !Points::contains(*first) {
        return 0;
    }
    let k = run_length::<D>(tail);
    if k == 0 {
        return 0;
    }
    k + 1
}

// Digits, and then groups of them.
fn figures<D: Class>(s: &[u32]) -> usize
    ensures { result ≡ number D.has s.now }
{
    let k = run_length::<D>(s);
    if k == 0 {
        return 0;
    }
    let mut i = k;
    // Kept: (3) each turn goes on by as much as it matched, so no iterator is plainer.
    loop {
        let more = group::<D>(&s[i..]);
        if more == 0 {
            return i;
        }
        i += more;
    }
}

// \r?\n
fn line_end(s: &[u32]) -> usize
    ensures { result ≡ line_end s.now }
{
    match s {
        [0xA, ..] => 1,
        [0xD, 0xA, ..] => 2,
        _ => 0,
    }
}

// The length of the match at the part's start, 0 for none. The first character tells which
// alternative can match.
pub fn non_thai_length(s: &[u32]) -> usize
    ensures { result ≡ non_thai s.now }
{
    let Some(first) = s.first() else {
        return 0;
    };
    let x = *first;
    if 0x7A < x {
        if ThaiDigits::contains(x) {
            return figures::<ThaiDigits>(s);
        }
        return 0;
    }
    if Letters::contains(x) {
        return run_length::<Letters>(s);
    }
    if Digits::contains(x) {
        return figures::<Digits>(s);
    }
    if Blanks::contains(x) {
        return run_length::<Blanks>(s);
    }
    line_end(s)
}

// Whether there is a match at the part's start, told by two characters at most.
pub fn starts_non_thai(s: &[u32]) -> bool
    ensures { result ≡ ltb 0 (non_thai s.now) }
{
    let Some(first) = s.first() else {
        return false;
    };
    let x = *first;
    if 0x7A < x {
        return ThaiDigits::contains(x);
    }
    Letters::contains(x) || Digits::contains(x) || Blanks::contains(x) || 0 < line_end(s)
}
