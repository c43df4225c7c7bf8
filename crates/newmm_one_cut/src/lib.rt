// Plain cutting, after newmm.rs: the loop over candidates.
#![tactic(auto)]

ghost use Rattle.std.specs.Prelude.{◌≡◌, ◌<◌, set};
ghost use Rattle.newmm_rules.specs.NonDictionary.{token_end};
ghost use Rattle.newmm_bfs.specs.inner.Strips.{Sized, Path, candidate_cell};
ghost use Rattle.newmm_word_step.specs.inner.Walks.{given_by};
ghost use Rattle.newmm_one_cut.specs.inner.Strips.{NextIs, TokenAt, OneLeft, Fresh, Lent, Marked, Done};

use newmm_bfs::{CANDIDATES, CLUSTER_ENDS, EDGE_ENDS, STRIPS, bfs_paths_graph};
use newmm_edges::{Progress, record_words};
use newmm_rules::{Ends, MAX_GRAPH_SIZE};
use newmm_skip::token_end;
use tcc::mark_ends;

// Where a path leads, and the number of ends then.
#[derive(Clone, Copy)]
struct Reached {
    goal: usize,
    ends: usize,
}

// The first candidate above b, or m where there is none.
fn next_candidate(row: &[u32], m: usize, b: usize) -> usize
    requires sized { Sized row.now m }
    requires b_lt_m { b < m }
    ensures { NextIs row.now m b result }
{
    for c in b + 1..m {
        if row[CANDIDATES * m + c] != 0 {
            return c;
        }
    }
    m
}

// One token from b, by the non-dictionary rule: its end becomes an end and a candidate.
fn put_token(text: &[u32], pool: &[u32], row: &mut [u32], m: usize, b: usize, ends: usize) -> usize
    requires { TokenAt text.now pool.now row.old m b ends }
    ensures value { result ≡ token_end (given_by text.now pool.now) b }
    ensures row_after { row.new ≡ set (set row.old (candidate_cell m result) 1) ends result }
{
    let flags = CLUSTER_ENDS * m;
    let flags_end = EDGE_ENDS * m;
    let e = token_end(text, pool, &row[flags..flags_end], b);
    row[CANDIDATES * m + e] = 1;
    row[ends] = e as u32;
    e
}

// Writes the ends of the path from the committed end to the one candidate left behind the first
// ends. Where b is the committed end, the path is the first edge that stands.
fn put_path(row: &mut [u32], m: usize, committed: usize, b: usize, ends: usize) -> Reached
    requires { OneLeft row.old m committed b ends }
    ensures next_is { NextIs row.old m b result.goal }
    ensures path { Path row.old row.new m committed result.goal ends result.ends }
{
    if b == committed {
        let e = row[EDGE_ENDS * m];
        row[ends] = e;
        return Reached {
            goal: e as usize,
            ends: ends + 1,
        };
    }
    let goal = next_candidate(row, m, b);
    let k = bfs_paths_graph(row, m, committed, goal, ends);
    Reached { goal, ends: k }
}

// The cut, in a row of just the cells that it takes: its ends stand at the front then, and the
// flags of the cluster ends in their strip. The other cells may hold anything.
pub fn cut_marked(text: &[u32], pool: &[u32], row: &mut [u32]) -> Ends
    requires { Fresh text.now pool.now row.old }
    ensures { Marked (given_by text.now pool.now) text.now row.new result }
{
    let n = text.len();
    let m = n + 1;
    let flags = CLUSTER_ENDS * m;
    let flags_end = EDGE_ENDS * m;
    mark_ends(text, &mut row[flags..flags_end]);
    row[CANDIDATES * m] = 1;
    let mut b = 0;
    let mut committed = 0;
    let mut ends = 0;
    let mut p = Progress {
        edges: 0,
        left: 0,
        total: 0,
    };
    // Kept: (3) each turn goes on at the place that it finds, so no iterator is plainer.
    while b < n {
        let q = record_words(text, pool, row, m, b, p);
        let left = q.left;
        let edges = q.edges;
        let total = q.total;
        if left == 0 {
            b = put_token(text, pool, row, m, b, ends);
            committed = b;
            ends += 1;
            p = Progress {
                edges: 0,
                left: 0,
                total,
            };
            continue;
        }
        if left == 1 {
            let r = put_path(row, m, committed, b, ends);
            b = r.goal;
            committed = b;
            ends = r.ends;
            p = Progress {
                edges: 0,
                left: 0,
                total,
            };
            continue;
        }
        b = next_candidate(row, m, b);
        p = Progress {
            edges,
            left: left - 1,
            total,
        };
    }
    Ends {
        ends,
        edges: p.total,
    }
}

// The same, and all but the ends is cleared.
fn cut_strips(text: &[u32], pool: &[u32], row: &mut [u32]) -> Ends
    requires { Fresh text.now pool.now row.old }
    ensures { Done (given_by text.now pool.now) row.old row.new result }
{
    let r = cut_marked(text, pool, row);
    row[r.ends..].fill(0);
    r
}

// The plain cut of a text: its ends stand at the front of the row then, and the rest of it is as it
// was. The cells that its strips take are 0; 9n + 128 cells are always enough.
pub fn one_cut(text: &[u32], pool: &[u32], row: &mut [u32]) -> Ends
    requires { Lent text.now pool.now row.old }
    ensures { Done (given_by text.now pool.now) row.old row.new result }
{
    let m = text.len() + 1;
    let cells = STRIPS * m + MAX_GRAPH_SIZE;
    cut_strips(text, pool, &mut row[..cells])
}
