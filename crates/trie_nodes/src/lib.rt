// Whether the nodes of a dictionary stand in level order, each as it may, and the scalars of the
// children of each rise: of one in a half, or of a plain pool, whose second halves are seen to by
// the same walks. Two walks see to all of that, without a branch on a node's children: they
// count the nodes that fall, that is, whose scalar isn't above that of the node before, and the
// first children that fall. If these are as many, no other node falls.
#![tactic(auto)]

ghost use Rattle.std.specs.Prelude.{◌≡◌, ◌+◌, ◌-◌, ◌*◌, ◌≤◌, ◌<◌, length, get_or};
ghost use Rattle.refusal.specs.Limits.{max_nodes};
ghost use Rattle.trie_pool.specs.Cells.{node_cells, scalar_at, used};
ghost use Rattle.trie_node.specs.inner.Checks.{Decides};
ghost use Rattle.trie_nodes.specs.inner.Falls.{none, fall_to, or_none, fall, first};
ghost use Rattle.trie_nodes.specs.inner.Walking.{Aside, AllNodes, At, Parents, Leaves};

use trie_node::node_ok;
use trie_pool::{COUNT, FIRST, HALF, NODE};

// Above every scalar.
// Kept: (1) a number, so that a walk compares it without a branch on a node's children.
const NONE: u32 = 0xFFFFFFFF;

// How far the walk over the nodes has come.
#[derive(Clone, Copy, Debug, PartialEq, Eq)]
pub struct Walk {
    // The next node.
    pub i: usize,
    // Where its children start.
    pub s: usize,
    // The nodes before it that fall.
    pub falls: usize,
    // The first children of these nodes that fall.
    pub starts: usize,
    // The cells of the second halves of those before it, or-ed.
    pub fifth: u32,
    pub sixth: u32,
    pub seventh: u32,
    pub eighth: u32,
}

// 1 if x isn't above y, else 0.
fn falls_to(y: u32, x: u32) -> usize
    ensures { result ≡ fall_to y x }
{
    usize::from(x <= y)
}

// The scalar x of a first child, or NONE where there are no children.
fn or_none(x: u32, k: usize) -> u32
    ensures { result ≡ or_none x k }
{
    if k == 0 {
        return NONE;
    }
    x
}

// 1 if the first of k children, which start at s, falls, else 0.
pub fn start_falls(p: &[u32], s: usize, k: usize) -> usize
    requires { (0 < s) × (node_cells * s < length p.now) }
    ensures value { scalar_at p.now (s - 1) < none → result ≡ first (scalar_at p.now) s k }
    ensures upper_bound { result ≤ 1 }
{
    let b = NODE * s;
    falls_to(p[b - NODE], or_none(p[b], k))
}

// The same of the root's children, of which there may be none.
// Kept: (5), (6) here and below n counts nodes: the cells of a half end with the half of its last
// node, so no part of the slice says n, and the clause on its length stands where p is read.
pub fn root_falls(p: &[u32], n: usize, k: usize) -> usize
    requires { (0 < n) × (node_cells * n ≤ length p.now + 4) }
    ensures value { k < n → scalar_at p.now 0 < none → result ≡ first (scalar_at p.now) 1 k }
    ensures upper_bound { result ≤ 1 }
{
    if n == 1 {
        return 0;
    }
    start_falls(p, 1, k)
}

// 1 if node i falls, else 0.
pub fn fall_at(p: &[u32], i: usize) -> usize
    requires { (0 < i) × (node_cells * i < length p.now) }
    ensures value { result ≡ fall (scalar_at p.now) (i - 1) }
    ensures upper_bound { result ≤ 1 }
{
    let a = NODE * i;
    falls_to(p[a - NODE], p[a])
}

// The walk up to the last node with children, if the root is right. All before i is right, if s is
// n at the end: it stops where a node is wrong.
fn parents<const CELLS: usize>(p: &[u32], n: usize) -> Walk
    requires small { (0 < n) × (n ≤ max_nodes) }
    requires room { node_cells * n ≤ length p.now + 4 }
    requires both { CELLS ≡ node_cells → node_cells * n ≤ length p.now }
    requires root { CELLS ≡ node_cells → Aside p.now 0 }
    ensures { Parents p.now n result.s (At CELLS p.now n result) }
{
    let count = p[COUNT] as usize;
    let mut w = Walk {
        i: 1,
        s: 1 + count,
        falls: 0,
        starts: root_falls(p, n, count),
        fifth: 0,
        sixth: 0,
        seventh: 0,
        eighth: 0,
    };
    // Kept: (3) two places move, i by one and s by a count, and the walk stops where a node is wrong.
    while w.s < n {
        if w.s <= w.i {
            return w;
        }
        if !node_ok(p, w.i, w.s) {
            return w;
        }
        let k = p[NODE * w.i + COUNT] as usize;
        w.falls += fall_at(p, w.i);
        w.starts += start_falls(p, w.s, k);
        let b = NODE * w.i + HALF;
        w.s += k;
        w.i += 1;
        if CELLS != NODE {
            continue;
        }
        w.fifth |= p[b];
        w.sixth |= p[b + 1];
        w.seventh |= p[b + 2];
        w.eighth |= p[b + 3];
    }
    w
}

// The rest of the walk, over nodes without children. All is right if i is n at the end.
fn leaves<const CELLS: usize>(p: &[u32], n: usize, from: Walk) -> Walk
    requires small { n ≤ max_nodes }
    requires room { node_cells * n ≤ length p.now + 4 }
    requires both { CELLS ≡ node_cells → node_cells * n ≤ length p.now }
    requires at { At CELLS p.now n from }
    requires through { from.s ≡ n }
    ensures { Leaves p.now n result.i result.s (At CELLS p.now n result) }
{
    let mut w = from;
    // Kept: (3) the place where the walk stops is a field of what it returns.
    while w.i < n {
        if !node_ok(p, w.i, n) {
            return w;
        }
        if p[NODE * w.i + COUNT] != 0 {
            return w;
        }
        w.falls += fall_at(p, w.i);
        let b = NODE * w.i + HALF;
        w.i += 1;
        if CELLS != NODE {
            continue;
        }
        w.fifth |= p[b];
        w.sixth |= p[b + 1];
        w.seventh |= p[b + 2];
        w.eighth |= p[b + 3];
    }
    w
}

// Whether the second halves were all 0.
fn none_aside(w: Walk) -> bool
    ensures { Decides result ((w.fifth ≡ 0) × (w.sixth ≡ 0) × (w.seventh ≡ 0) × (w.eighth ≡ 0)) }
{
    w.fifth | w.sixth | w.seventh | w.eighth == 0
}

// Whether the root's children start at node 1 and, where both halves are looked at, its second half
// is 0.
fn root_ok<const CELLS: usize>(p: &[u32]) -> bool
    requires room { 4 ≤ length p.now }
    requires both { CELLS ≡ node_cells → node_cells ≤ length p.now }
    ensures { Decides result ((get_or p.now 1 0 ≡ 1) × (CELLS ≡ node_cells → Aside p.now 0)) }
{
    if p[FIRST] != 1 {
        return false;
    }
    if CELLS != NODE {
        return true;
    }
    p[HALF] | p[HALF + 1] | p[HALF + 2] | p[HALF + 3] == 0
}

// Whether all that is asked of single nodes holds of each of n, and each but the root is a child of
// one. CELLS is how many cells of a node are looked at: HALF, or NODE, and then the second half of
// each is to be 0.
pub fn nodes_ok<const CELLS: usize>(p: &[u32], n: usize) -> bool
    requires small { (0 < n) × (n ≤ max_nodes) }
    requires room { node_cells * n ≤ length p.now + 4 }
    requires both { CELLS ≡ node_cells → node_cells * n ≤ length p.now }
    requires used { used p.now ≡ n }
    ensures { Decides result (AllNodes CELLS p.now n) }
{
    if !root_ok::<CELLS>(p) {
        return false;
    }
    let u = parents::<CELLS>(p, n);
    if u.s != n {
        return false;
    }
    let v = leaves::<CELLS>(p, n, u);
    if v.i != n {
        return false;
    }
    if CELLS == NODE {
        if !none_aside(v) {
            return false;
        }
    }
    v.falls == v.starts
}
