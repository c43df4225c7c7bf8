// Clusters that start with a consonant: alternatives 10 to 16.
ghost use Rattle.std.specs.Prelude.{◌≡◌, ◌∷◌, [], ◌++◌};
ghost use Rattle.tcc_rules.specs.Rules.{is, consonant, d_or_i};
ghost use Rattle.tcc_rules.specs.Clusters.{cluster_end};
ghost use Rattle.tcc_rules.specs.inner.Optional.{exact, some, Begins};

use crate::group::{FinalVowel, OpenVowel, Tone, group_k, skip};
use crate::letters::{
    MAITAIKHU, RO_RUA, SPACE, THANTHAKHAT, at, is_closed, is_consonant, is_d_or_i, is_tone,
    is_vowel,
};

// Kept: (5) here and in after_e, after_vowel: what is known of the characters differs in each function.
pub fn from_consonant(text: &[u32], p: usize) -> usize
    requires { Begins (some consonant ∷ []) text.now p }
    ensures { result ≡ cluster_end text.now p }
{
    let x = at(text, p + 1);
    if x == RO_RUA {
        return from_ro(text, p);
    }
    if is_consonant(x) {
        return group_k(text, p + 1);
    }
    if is_tone(x) {
        return group_k(text, skip::<OpenVowel>(text, p + 2));
    }
    if is_closed(x) {
        return from_closed(text, p);
    }
    if is_d_or_i(x) {
        return from_d_or_i(text, p);
    }
    if is_vowel(x) {
        return group_k(text, skip::<Tone>(text, p + 2));
    }
    if x == MAITAIKHU {
        return p + 2;
    }
    p + 1
}

// cั or cื
fn from_closed(text: &[u32], p: usize) -> usize
    requires { Begins (some consonant ∷ some (is 0xE31 ++ is 0xE37) ∷ []) text.now p }
    ensures { result ≡ cluster_end text.now p }
{
    let q = skip::<Tone>(text, p + 2);
    if is_consonant(at(text, q)) {
        return group_k(text, skip::<FinalVowel>(text, q + 1));
    }
    q
}

// c[ิุู]
fn from_d_or_i(text: &[u32], p: usize) -> usize
    requires { Begins (some consonant ∷ some d_or_i ∷ []) text.now p }
    ensures { result ≡ cluster_end text.now p }
{
    if at(text, p + 2) == THANTHAKHAT {
        return group_k(text, p + 3);
    }
    group_k(text, skip::<Tone>(text, p + 2))
}

// cร
fn from_ro(text: &[u32], p: usize) -> usize
    requires { Begins (some consonant ∷ exact 0xE23 ∷ []) text.now p }
    ensures { result ≡ cluster_end text.now p }
{
    if at(text, p + 2) != RO_RUA {
        return group_k(text, p + 1);
    }
    if !is_consonant(at(text, p + 3)) {
        return group_k(text, p + 1);
    }
    if at(text, p + 4) != THANTHAKHAT {
        return group_k(text, p + 1);
    }
    if at(text, p + 5) != SPACE {
        return group_k(text, p + 1);
    }
    if at(text, p + 6) != MAITAIKHU {
        return group_k(text, p + 1);
    }
    p + 7
}
