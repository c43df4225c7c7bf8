// Clusters that start with เ: alternatives 1 to 9.
ghost use Rattle.std.specs.Prelude.{◌≡◌, ◌∷◌, []};
ghost use Rattle.tcc_rules.specs.Rules.{consonant, tone};
ghost use Rattle.tcc_rules.specs.Clusters.{cluster_end};
ghost use Rattle.tcc_rules.specs.inner.Optional.{exact, some, Begins};

use crate::group::{SaraA, SaraAa, Tone, group_k, shorter_k, skip};
use crate::letters::{
    MAITAIKHU, O_ANG, SARA_A, SARA_AA, SARA_I, SARA_II, SARA_UEE, THANTHAKHAT, YO_YAK, at,
    is_consonant, is_tone,
};

pub fn from_e(text: &[u32], p: usize) -> usize
    requires { Begins (exact 0xE40 ∷ []) text.now p }
    ensures { result ≡ cluster_end text.now p }
{
    if !is_consonant(at(text, p + 1)) {
        return p + 1;
    }
    let x = at(text, p + 2);
    if is_consonant(x) {
        return from_e_two(text, p);
    }
    if is_tone(x) {
        return group_k(text, skip::<SaraA>(text, skip::<SaraAa>(text, p + 3)));
    }
    if x == SARA_I {
        return from_e_i(text, p);
    }
    if x == SARA_II {
        return from_e_ii(text, p);
    }
    if x == SARA_UEE {
        return from_e_uee(text, p);
    }
    if x == SARA_AA {
        return group_k(text, skip::<SaraA>(text, p + 3));
    }
    if x == MAITAIKHU {
        return from_e_short(text, p);
    }
    if x == SARA_A {
        return group_k(text, p + 3);
    }
    p + 2
}

// เc็
fn from_e_short(text: &[u32], p: usize) -> usize
    requires { Begins (exact 0xE40 ∷ some consonant ∷ exact 0xE47 ∷ []) text.now p }
    ensures { result ≡ cluster_end text.now p }
{
    if is_consonant(at(text, p + 3)) {
        return group_k(text, p + 4);
    }
    p + 2
}

// เcc
fn from_e_two(text: &[u32], p: usize) -> usize
    requires { Begins (exact 0xE40 ∷ some consonant ∷ some consonant ∷ []) text.now p }
    ensures { result ≡ cluster_end text.now p }
{
    let x = at(text, p + 3);
    if is_tone(x) {
        return from_e_two_tone(text, p);
    }
    if x == SARA_II {
        return from_e_two_ii(text, p);
    }
    if x == SARA_AA {
        if at(text, p + 4) == SARA_A {
            return group_k(text, p + 5);
        }
        return p + 2;
    }
    if x == MAITAIKHU {
        if is_consonant(at(text, p + 4)) {
            return group_k(text, p + 5);
        }
        return p + 2;
    }
    group_k(text, p + 2)
}

// เcc and a tone
fn from_e_two_tone(text: &[u32], p: usize) -> usize
    requires { Begins (exact 0xE40 ∷ some consonant ∷ some consonant ∷ some tone ∷ []) text.now p }
    ensures { result ≡ cluster_end text.now p }
{
    if at(text, p + 4) != SARA_AA {
        return p + 2;
    }
    if at(text, p + 5) != SARA_A {
        return p + 2;
    }
    group_k(text, p + 6)
}

// เccี
fn from_e_two_ii(text: &[u32], p: usize) -> usize
    requires { Begins (exact 0xE40 ∷ some consonant ∷ some consonant ∷ exact 0xE35 ∷ []) text.now p }
    ensures { result ≡ cluster_end text.now p }
{
    let q = skip::<Tone>(text, p + 4);
    if at(text, q) != YO_YAK {
        return p + 2;
    }
    if at(text, q + 1) == SARA_A {
        return group_k(text, q + 2);
    }
    p + 2
}

// เcิ
fn from_e_i(text: &[u32], p: usize) -> usize
    requires { Begins (exact 0xE40 ∷ some consonant ∷ exact 0xE34 ∷ []) text.now p }
    ensures { result ≡ cluster_end text.now p }
{
    let x = at(text, p + 3);
    if is_tone(x) {
        return from_e_i_tone(text, p);
    }
    if !is_consonant(x) {
        return p + 2;
    }
    if at(text, p + 4) == THANTHAKHAT {
        if is_consonant(at(text, p + 5)) {
            return group_k(text, p + 6);
        }
        return p + 4;
    }
    if x == YO_YAK {
        return shorter_k(text, p + 4);
    }
    group_k(text, p + 4)
}

// เcิ and a tone
fn from_e_i_tone(text: &[u32], p: usize) -> usize
    requires { Begins (exact 0xE40 ∷ some consonant ∷ exact 0xE34 ∷ some tone ∷ []) text.now p }
    ensures { result ≡ cluster_end text.now p }
{
    let x = at(text, p + 4);
    if x == YO_YAK {
        return shorter_k(text, p + 5);
    }
    if is_consonant(x) {
        return group_k(text, p + 5);
    }
    p + 2
}

// เcี
fn from_e_ii(text: &[u32], p: usize) -> usize
    requires { Begins (exact 0xE40 ∷ some consonant ∷ exact 0xE35 ∷ []) text.now p }
    ensures { result ≡ cluster_end text.now p }
{
    let q = skip::<Tone>(text, p + 3);
    if at(text, q) != YO_YAK {
        return p + 2;
    }
    if at(text, q + 1) == SARA_A {
        return group_k(text, q + 2);
    }
    shorter_k(text, q + 1)
}

// เcื
fn from_e_uee(text: &[u32], p: usize) -> usize
    requires { Begins (exact 0xE40 ∷ some consonant ∷ exact 0xE37 ∷ []) text.now p }
    ensures { result ≡ cluster_end text.now p }
{
    let q = skip::<Tone>(text, p + 3);
    if at(text, q) != O_ANG {
        return p + 2;
    }
    group_k(text, skip::<SaraA>(text, q + 1))
}
