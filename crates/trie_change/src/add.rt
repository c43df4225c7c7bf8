// Putting a word in.
ghost use Rattle.trie_change.specs.inner.Adding.{Enters, Entered, Puts, PutIn};

use trie_child::seek;
use trie_leaf::plant;
use trie_pool::{COUNT, FIRST, IN_USE, MARK, NODE};

// The child of b with scalar x, made if there is none.
fn enter(p: &mut [u32], b: usize, x: u32) -> usize
    requires { Enters p.old b x }
    ensures { Entered p.old p.new b x result }
{
    let r = seek(p, b, x);
    let e = p[NODE * b + FIRST] as usize + p[NODE * b + COUNT] as usize;
    let n = p[IN_USE] as usize;
    if e <= r {
        plant(p, n, b, r, x);
        return r;
    }
    if p[NODE * r] != x {
        plant(p, n, b, r, x);
        return r;
    }
    r
}

// Puts in a trimmed word of 1 to 255 scalars, for which there is room, with its mark. A word that
// is held gets the mark.
pub fn add_word(p: &mut [u32], w: &[u32], mark: u32)
    requires { Puts p.old w.now mark }
    ensures { PutIn p.old p.new w.now mark }
{
    let mut i: usize = 0;
    for x in w {
        i = enter(p, i, *x);
    }
    p[NODE * i + MARK] = mark;
}
