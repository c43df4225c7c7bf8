// Clusters that start with แ, โ, ใ or ไ: alternatives 18 to 24.
ghost use Rattle.std.specs.Prelude.{◌≡◌, ◌∷◌, []};
ghost use Rattle.tcc_rules.specs.Rules.{up_to, consonant};
ghost use Rattle.tcc_rules.specs.Clusters.{cluster_end};
ghost use Rattle.tcc_rules.specs.inner.Optional.{exact, some, Begins};

use crate::group::{SaraA, Tone, skip};
use crate::letters::{MAITAIKHU, THANTHAKHAT, at, is_consonant};

pub fn from_ae(text: &[u32], p: usize) -> usize
    requires { Begins (exact 0xE41 ∷ []) text.now p }
    ensures { result ≡ cluster_end text.now p }
{
    if !is_consonant(at(text, p + 1)) {
        return p + 1;
    }
    let x = at(text, p + 2);
    if is_consonant(x) {
        return from_ae_two(text, p);
    }
    if x == MAITAIKHU {
        return from_ae_short(text, p);
    }
    skip::<SaraA>(text, skip::<Tone>(text, p + 2))
}

// แc็
fn from_ae_short(text: &[u32], p: usize) -> usize
    requires { Begins (exact 0xE41 ∷ some consonant ∷ exact 0xE47 ∷ []) text.now p }
    ensures { result ≡ cluster_end text.now p }
{
    if is_consonant(at(text, p + 3)) {
        return p + 4;
    }
    p + 2
}

// แcc
fn from_ae_two(text: &[u32], p: usize) -> usize
    requires { Begins (exact 0xE41 ∷ some consonant ∷ some consonant ∷ []) text.now p }
    ensures { result ≡ cluster_end text.now p }
{
    let x = at(text, p + 3);
    if x == THANTHAKHAT {
        return p + 4;
    }
    let y = at(text, p + 4);
    if x == MAITAIKHU {
        if is_consonant(y) {
            return p + 5;
        }
        return p + 2;
    }
    if !is_consonant(x) {
        return p + 2;
    }
    if y == THANTHAKHAT {
        return p + 5;
    }
    p + 2
}

pub fn from_o(text: &[u32], p: usize) -> usize
    requires { Begins (exact 0xE42 ∷ []) text.now p }
    ensures { result ≡ cluster_end text.now p }
{
    if !is_consonant(at(text, p + 1)) {
        return p + 1;
    }
    skip::<SaraA>(text, skip::<Tone>(text, p + 2))
}

// ใ or ไ
pub fn from_ai(text: &[u32], p: usize) -> usize
    requires { Begins (some (up_to 0xE43 0xE44) ∷ []) text.now p }
    ensures { result ≡ cluster_end text.now p }
{
    if !is_consonant(at(text, p + 1)) {
        return p + 1;
    }
    skip::<Tone>(text, p + 2)
}
