// A second matcher of Thai character clusters, slow and plain: it keeps the alternatives as tables
// and tries them in order. It gives the ends that `tcc` gives, and tells which alternative won.
#![tactic(auto)]

mod tables;

ghost use Rattle.std.specs.Prelude.{◌≡◌, ◌++◌, ◌≤◌, length, drop};
ghost use Rattle.refusal.specs.Limits.{max_text};
ghost use Rattle.char_string_scalars.specs.Scalars.{checked};
ghost use Rattle.tcc_rules.specs.Clusters.{cluster_ends};
ghost use Rattle.tcc_tables.specs.Answers.{winners_of, Wins};

use char_string_scalars::check_text;
use refusal::Refusal;
use tables::{CLASSES, ITEMS, STARTS};
use tcc_engine::Engine;

fn count_clusters(engine: Engine, text: &[u32]) -> usize
    ensures { result ≡ length (cluster_ends text.now) }
{
    let mut p = 0;
    let mut n = 0;
    // Kept: (3) a cluster tells where the next one starts: an own iterator would be this loop too.
    while p < text.len() {
        let won = engine.next_cluster(text, p);
        p = won.end;
        n += 1;
    }
    n
}

// Writes each cluster's end, and the number of the alternative that won it.
fn put_clusters(engine: Engine, text: &[u32], ends: &mut [u32], winners: &mut [u32])
    requires text_len_bound { length text.now ≤ max_text }
    requires text_in_bounds { length (cluster_ends text.now) ≤ length ends.old }
    requires text_in_bounds_2 { length (cluster_ends text.now) ≤ length winners.old }
    ensures ends_after { ends.new ≡
        cluster_ends text.now ++ drop (length (cluster_ends text.now)) ends.old }
    ensures winners_after { winners.new ≡
        winners_of text.now ++ drop (length (winners_of text.now)) winners.old }
{
    let mut p = 0;
    let mut n = 0;
    // Kept: (3) as in count_clusters.
    while p < text.len() {
        let won = engine.next_cluster(text, p);
        p = won.end;
        ends[n] = p as u32;
        winners[n] = won.number;
        n += 1;
    }
}

// What is told of a text that is accepted, by tables that are right.
fn told_by(
    engine: Engine,
    text: &[u32],
    ends: &mut [u32],
    winners: &mut [u32],
) -> Result<usize, Refusal>
    requires text_value { checked text.now ≡ Ok (length text.now) }
    ensures { Wins text.now ends.old winners.old
        result ends.new winners.new }
{
    let needed = count_clusters(engine, text);
    if ends.len() < needed {
        return Err(Refusal::OutputTooShort(needed));
    }
    if winners.len() < needed {
        return Err(Refusal::OutputTooShort(needed));
    }
    put_clusters(engine, text, ends, winners);
    Ok(needed)
}

// The ends of the text's clusters, in characters, and for each the number of the alternative that
// won, 0 where none did; accepted with the number of clusters. Neither row is written if either is
// too short.
// Refusals 2, 3, 6.
pub fn tcc_winners(text: &[u32], ends: &mut [u32], winners: &mut [u32]) -> Result<usize, Refusal>
    ensures { Wins text.now ends.old winners.old
        result ends.new winners.new }
{
    check_text(text)?;
    let engine = Engine {
        classes: &CLASSES,
        items: &ITEMS,
        starts: &STARTS,
    };
    told_by(engine, text, ends, winners)
}
