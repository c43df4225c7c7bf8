// The strips of the scratch, and the breadth-first search of plain cutting in them. An edge between
// the start and the goal is read once, and cells of other places are not touched, so nothing has to
// be cleared between two searches.
#![tactic(auto)]

ghost use Rattle.std.specs.Prelude.{◌≡◌, ◌<◌, ◌≤◌, ◌+◌};
ghost use Rattle.newmm_bfs.specs.inner.Strips.{Sized, tail_after, row_after, Start, Kept, Path};
ghost use Rattle.newmm_bfs.specs.inner.Ways.{Traced, TracedBy, Reaches, LengthIs, PutIs};

// The scratch for m positions is a row of strips, one behind the other, with m cells each; the last
// has more. The ends stand at its front and the queue behind them, from m on; each strip below
// stands behind so many others.
pub const PREDECESSORS: usize = 2;

// where the edges of a place start among the ends of all edges
pub const FIRST_EDGES: usize = 3;

// how many edges a place has
pub const EDGE_COUNTS: usize = 4;

// 1 for a place that ever was a candidate
pub const CANDIDATES: usize = 5;

// 1 for a cluster end
pub const CLUSTER_ENDS: usize = 6;

// the ends of all edges, in recorded order
pub const EDGE_ENDS: usize = 7;

// the number of strips
pub const STRIPS: usize = 8;

// Kept: (5) row and m go together, but `bfs_paths_graph`, which docs/TRACE.md names, takes them as
// they are and may ask no more: a struct over the lent row would be made anew at each call.

// Queues x from v, unless it was queued before; the number of vertices queued then.
fn queue_up(row: &mut [u32], m: usize, tail: usize, v: usize, x: usize) -> usize
    requires sized { Sized row.old m }
    requires tail_lt_m { (tail < m) × (v < m) × (x < m) }
    ensures value { result ≡ tail_after row.old m tail x }
    ensures row_after { row.new ≡ row_after row.old m tail v x }
{
    let at = PREDECESSORS * m + x;
    if row[at] != 0 {
        return tail;
    }
    row[at] = (v + 1) as u32;
    row[m + tail] = x as u32;
    tail + 1
}

// The vertex from which the search reaches the goal. It takes the edges of each vertex in recorded
// order, the first queued vertex first.
fn search(row: &mut [u32], m: usize, start: usize, goal: usize) -> usize
    requires { Start row.old m start goal }
    ensures reaches { Reaches row.old row.new m start goal result }
    ensures kept { Kept m goal row.old row.new }
{
    let mut tail = queue_up(row, m, 0, start, start);
    let mut head = 0;
    // Kept: (3) the queue grows while it is read, so an index is plainer than an iterator.
    loop {
        let v = row[m + head] as usize;
        let first = EDGE_ENDS * m + row[FIRST_EDGES * m + v] as usize;
        let count = row[EDGE_COUNTS * m + v] as usize;
        for j in 0..count {
            let x = row[first + j] as usize;
            if x == goal {
                return v;
            }
            tail = queue_up(row, m, tail, v, x);
        }
        head += 1;
    }
}

// How many vertices stand after the start on the way to v.
fn way_length(row: &[u32], m: usize, start: usize, v: usize) -> usize
    requires sized { Sized row.now m }
    requires v_lt_m { v < m }
    requires traced { Traced row.now m start v }
    ensures { LengthIs row.now m start v result }
{
    let mut k = 0;
    let mut x = v;
    // Kept: (3) each step goes to the cell that the last one named, so no iterator is plainer.
    while x != start {
        x = row[PREDECESSORS * m + x] as usize - 1;
        k += 1;
    }
    k
}

// Writes these k vertices behind the first ends, the last one first.
fn put_way(row: &mut [u32], m: usize, v: usize, count: usize, k: usize)
    requires sized { Sized row.old m }
    requires v_lt_m { (v < m) × (count + k < m) }
    requires traced_by { TracedBy row.old m v k }
    ensures { PutIs row.old row.new m v count k }
{
    let mut x = v;
    for i in (count..count + k).rev() {
        row[i] = x as u32;
        x = row[PREDECESSORS * m + x] as usize - 1;
    }
}

// Writes the ends of the way that the search finds behind the first ends, and gives the number of
// ends then.
pub fn bfs_paths_graph(row: &mut [u32], m: usize, start: usize, goal: usize, count: usize) -> usize
    requires start { Start row.old m start goal }
    requires count_le_start { count ≤ start }
    ensures { Path row.old row.new m start goal count result }
{
    let v = search(row, m, start, goal);
    let k = way_length(row, m, start, v);
    put_way(row, m, v, count, k);
    row[count + k] = goal as u32;
    count + k + 1
}
