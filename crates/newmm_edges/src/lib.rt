// Step 1 of plain cutting: the words at a place become edges and candidates, in strips of the
// scratch.
#![tactic(auto)]

ghost use Rattle.std.specs.Prelude.{◌≡◌};
ghost use Rattle.newmm_bfs.specs.inner.Strips.{Sized};
ghost use Rattle.newmm_edges.specs.inner.Recording.{row_after, progress_after, Room, Here, Alone, RecordsAll};

use newmm_bfs::{CANDIDATES, CLUSTER_ENDS, EDGE_COUNTS, EDGE_ENDS, FIRST_EDGES};
use newmm_rules::MAX_GRAPH_SIZE;
use newmm_word_step::{Step, word_limit, word_step};

// The numbers of a cutting call: the edges since the last clearing, the candidates left, and the
// edges recorded in the whole call.
#[derive(Clone, Copy, Debug, PartialEq, Eq)]
pub struct Progress {
    pub edges: usize,
    pub left: usize,
    pub total: usize,
}

// Records an edge from b to e, and e as a candidate if it never was one.
fn record_edge(row: &mut [u32], m: usize, b: usize, e: usize, first: usize, p: Progress) -> Progress
    requires sized { Sized row.old m }
    requires room { Room m b e first p }
    ensures value { result ≡ progress_after row.old m e p }
    ensures row_after { row.new ≡ row_after row.old m b e first p.edges }
{
    let k = p.edges;
    let at = CANDIDATES * m + e;
    let known = row[at];
    row[EDGE_ENDS * m + k] = e as u32;
    row[EDGE_COUNTS * m + b] = (k + 1 - first) as u32;
    row[at] = 1;
    if known == 0 {
        return Progress {
            edges: k + 1,
            left: p.left + 1,
            total: p.total + 1,
        };
    }
    Progress {
        edges: k + 1,
        left: p.left,
        total: p.total + 1,
    }
}

// Records the words at b, shortest first, and stops behind an edge where more than 50 stand since
// the last clearing.
pub fn record_words(
    text: &[u32],
    pool: &[u32],
    row: &mut [u32],
    m: usize,
    b: usize,
    p: Progress,
) -> Progress
    requires { Here text.now pool.now row.old m b p }
    ensures records_all { RecordsAll text.now pool.now row.old row.new m b p result }
    ensures alone { Alone row.old row.new m b }
{
    let limit = word_limit(text.len(), b);
    let flags = CLUSTER_ENDS * m;
    let flags_end = EDGE_ENDS * m;
    let first = p.edges;
    row[FIRST_EDGES * m + b] = first as u32;
    let mut q = p;
    let mut node = 0;
    for e in b..limit {
        match word_step(text, pool, &row[flags..flags_end], e, node) {
            Step::Nothing => return q,
            Step::Part(r) => node = r,
            Step::Word(r) => {
                node = r;
                q = record_edge(row, m, b, e + 1, first, q);
                if MAX_GRAPH_SIZE < q.edges {
                    return q;
                }
            }
        }
    }
    q
}
