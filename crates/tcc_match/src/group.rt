// Optional characters, and the group k.
ghost use Rattle.std.specs.Prelude.{◌≡◌, true, false, ◌++◌, List, refl};
ghost use Rattle.tcc_rules.specs.Patterns.{Range, holds};
ghost use Rattle.tcc_rules.specs.Rules.{is, consonant, tone, d_or_i};
ghost use Rattle.tcc_rules.specs.inner.Optional.{skipped, k_end, shorter};

use crate::letters::{
    SARA_A, SARA_AA, SARA_AM, SARA_I, SARA_U, THANTHAKHAT, at, is_consonant, is_d_or_i, is_tone,
};

// A class of characters that may be skipped. 0, which is read past the end, is in none.
// Kept: (4) a class is named as a type and has no values to compare or print.
pub trait Class {
    ghost ranges: { List Range };

    // What each class must prove.
    ghost ends: { holds ranges 0 ≡ false };

    fn has(x: u32) -> bool
        ensures { result ≡ holds ranges x };
}

#[derive(Clone, Copy)]
pub struct Consonant;

impl Class for Consonant {
    ghost ranges = { consonant };

    ghost ends = { refl };

    fn has(x: u32) -> bool {
        is_consonant(x)
    }
}

#[derive(Clone, Copy)]
pub struct Tone;

impl Class for Tone {
    ghost ranges = { tone };

    ghost ends = { refl };

    fn has(x: u32) -> bool {
        is_tone(x)
    }
}

// [ิุู]
#[derive(Clone, Copy)]
pub struct DOrI;

impl Class for DOrI {
    ghost ranges = { d_or_i };

    ghost ends = { refl };

    fn has(x: u32) -> bool {
        is_d_or_i(x)
    }
}

#[derive(Clone, Copy)]
pub struct SaraA;

impl Class for SaraA {
    ghost ranges = { is 0xE30 };

    ghost ends = { refl };

    fn has(x: u32) -> bool {
        x == SARA_A
    }
}

#[derive(Clone, Copy)]
pub struct SaraAa;

impl Class for SaraAa {
    ghost ranges = { is 0xE32 };

    ghost ends = { refl };

    fn has(x: u32) -> bool {
        x == SARA_AA
    }
}

// [ุิะ]
#[derive(Clone, Copy)]
pub struct FinalVowel;

impl Class for FinalVowel {
    ghost ranges = { is 0xE38 ++ is 0xE34 ++ is 0xE30 };

    ghost ends = { refl };

    fn has(x: u32) -> bool {
        matches!(x, SARA_U | SARA_I | SARA_A)
    }
}

// [ะาำ]
#[derive(Clone, Copy)]
pub struct OpenVowel;

impl Class for OpenVowel {
    ghost ranges = { is 0xE30 ++ is 0xE32 ++ is 0xE33 };

    ghost ends = { refl };

    fn has(x: u32) -> bool {
        matches!(x, SARA_A | SARA_AA | SARA_AM)
    }
}

// Behind a character of the class at p, or p where there is none.
pub fn skip<C: Class>(text: &[u32], p: usize) -> usize
    ensures { result ≡ skipped C.ranges text.now p }
{
    if C::has(at(text, p)) {
        return p + 1;
    }
    p
}

// Three characters stand behind p, and none of them is U+0E4C, with which k ends.
fn unmarked(text: &[u32], p: usize) -> bool
    ensures { result ≡ true → p ≡ k_end text.now p }
{
    if text.len() <= p || text.len() - p < 4 {
        return false;
    }
    if text[p + 1] == THANTHAKHAT || text[p + 2] == THANTHAKHAT {
        return false;
    }
    text[p + 3] != THANTHAKHAT
}

// Where k ends that starts at p; p where there is none.
pub fn group_k(text: &[u32], p: usize) -> usize
    ensures { result ≡ k_end text.now p }
{
    if unmarked(text, p) {
        return p;
    }
    if !is_consonant(at(text, p)) {
        return p;
    }
    let q = skip::<DOrI>(text, skip::<Consonant>(text, p + 1));
    if at(text, q) == THANTHAKHAT {
        return q + 1;
    }
    p
}

// The same behind ย of alternatives 6 and 7, where the look-ahead takes a character off.
pub fn shorter_k(text: &[u32], p: usize) -> usize
    ensures { result ≡ shorter p (k_end text.now p) }
{
    let e = group_k(text, p);
    if p < e {
        return e - 1;
    }
    p
}
