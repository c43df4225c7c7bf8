// A cluster by its first character.
ghost use Rattle.std.specs.Prelude.{◌≡◌, ◌<◌, length};
ghost use Rattle.tcc_rules.specs.Clusters.{cluster_end};

use crate::after_consonant::from_consonant;
use crate::after_e::from_e;
use crate::after_vowel::{from_ae, from_ai, from_o};
use crate::letters::{SARA_AE, SARA_E, SARA_O, is_consonant, is_sara_ai};

// The end of the cluster that starts at p. p is a place of the text.
pub fn cluster_end(text: &[u32], p: usize) -> usize
    requires { p < length text.now }
    ensures { result ≡ cluster_end text.now p }
{
    let x = text[p];
    if is_consonant(x) {
        return from_consonant(text, p);
    }
    if x == SARA_E {
        return from_e(text, p);
    }
    if x == SARA_AE {
        return from_ae(text, p);
    }
    if x == SARA_O {
        return from_o(text, p);
    }
    if is_sara_ai(x) {
        return from_ai(text, p);
    }
    p + 1
}
