// The search for a child of a node.
#![tactic(auto)]

ghost use Rattle.std.specs.Prelude.{◌≡◌};
ghost use Rattle.trie_pool.specs.Words.{child};
ghost use Rattle.trie_pool.specs.inner.Sound.{Readable};
ghost use Rattle.trie_child.specs.inner.Search.{Between, Sought, to_place};

use trie_pool::{COUNT, FIRST, NODE};

// How many children a search walks past at most.
const MAX_WALK: usize = 8;

// Where a child of b with scalar x stands, or would stand, by halving: behind the child at `below`,
// which is lower, and at the one at `above` at most, which is not.
fn halved(p: &[u32], b: usize, x: u32, below: usize, above: usize) -> usize
    requires { Between p.now b x below above }
    ensures { Sought p.now b x result }
{
    let mut low = below;
    let mut high = above;
    // Kept: (3) a search by halving in cells that stand eight apart: no library method has it.
    while low + 1 < high {
        let middle = low + (high - low) / 2;
        if p[NODE * middle] < x {
            low = middle;
            continue;
        }
        high = middle;
    }
    high
}

// Where a child of b with scalar x stands, or would stand. The children rise by one at least, so it
// stands no further from the first than x from the first one's scalar: the search goes down from
// there. If even the child MAX_WALK places below is larger, it halves those down to there; else it
// walks, past MAX_WALK children at most.
pub fn seek(p: &[u32], b: usize, x: u32) -> usize
    requires { Readable p.now b }
    ensures { Sought p.now b x result }
{
    let first = p[NODE * b + FIRST] as usize;
    let count = p[NODE * b + COUNT] as usize;
    if count == 0 {
        return first;
    }
    let lowest = p[NODE * first];
    if x <= lowest {
        return first;
    }
    let last = first + count - 1;
    if p[NODE * last] < x {
        return last + 1;
    }
    let far = (x - lowest) as usize;
    let mut k = first + far.min(count - 1);
    if first + MAX_WALK < k {
        let nearest = k - MAX_WALK;
        if x < p[NODE * nearest] {
            return halved(p, b, x, first, nearest);
        }
    }
    // Kept: (3) the walk down ends where its test says, and k is its answer.
    while x < p[NODE * k] {
        k -= 1;
    }
    if p[NODE * k] < x {
        return k + 1;
    }
    k
}

// The child of b with scalar x. Most nodes have one child or none, and need no search.
pub fn find_child(p: &[u32], b: usize, x: u32) -> Option<usize>
    requires { Readable p.now b }
    ensures { to_place result ≡ child p.now b x }
{
    let first = p[NODE * b + FIRST] as usize;
    let count = p[NODE * b + COUNT] as usize;
    if count == 0 {
        return None;
    }
    if count == 1 {
        if p[NODE * first] != x {
            return None;
        }
        return Some(first);
    }
    let r = seek(p, b, x);
    if first + count <= r {
        return None;
    }
    if p[NODE * r] != x {
        return None;
    }
    Some(r)
}
