// Thai character clusters, after tcc_tokenizer.rs: where the clusters of a text end.
#![tactic(auto)]

ghost use Rattle.std.specs.Prelude.{◌≡◌, ◌++◌, ◌≤◌, ◌<◌, ◌+◌, length, drop, replicate};
ghost use Rattle.refusal.specs.Answers.{output};
ghost use Rattle.refusal.specs.Limits.{max_text};
ghost use Rattle.tcc_rules.specs.Clusters.{cluster_ends};
ghost use Rattle.tcc.specs.Answers.{clusters_answer};
ghost use Rattle.tcc.specs.Flags.{end_flags};

use char_string_scalars::check_text;
use refusal::Refusal;
use tcc_match::cluster_end;

fn count_ends(text: &[u32]) -> usize
    ensures { result ≡ length (cluster_ends text.now) }
{
    let mut p = 0;
    let mut n = 0;
    // Kept: (3) a cluster tells where the next one starts: an own iterator would be this loop too.
    while p < text.len() {
        p = cluster_end(text, p);
        n += 1;
    }
    n
}

fn put_ends(text: &[u32], out: &mut [u32]) -> usize
    requires { (length text.now ≤ max_text) × (length (cluster_ends text.now) ≤ length out.old) }
    ensures value { result ≡ length (cluster_ends text.now) }
    ensures out_after { out.new ≡
        cluster_ends text.now ++ drop (length (cluster_ends text.now)) out.old }
{
    let mut p = 0;
    let mut n = 0;
    // Kept: (3) as in count_ends.
    while p < text.len() {
        p = cluster_end(text, p);
        out[n] = p as u32;
        n += 1;
    }
    n
}

// The ends of the text's clusters, in characters; accepted with their number. Where the output has
// a cell for each character, each cluster is matched once, else they are counted first.
pub fn tcc_pos(text: &[u32], out: &mut [u32]) -> Result<usize, Refusal>
    ensures value { result ≡ clusters_answer text.now (length out.old) }
    ensures out_after { out.new ≡ output result (cluster_ends text.now) out.old }
{
    let n = check_text(text)?;
    if n <= out.len() {
        return Ok(put_ends(text, out));
    }
    let needed = count_ends(text);
    if out.len() < needed {
        return Err(Refusal::OutputTooShort(needed));
    }
    Ok(put_ends(text, out))
}

// Marks each cluster end with 1. The row's first cells, one for each position of the text, are 0
// before.
pub fn mark_ends(text: &[u32], row: &mut [u32])
    requires { (length text.now < length row.old) ×
        (row.old ≡ replicate (length text.now + 1) 0 ++ drop (length text.now + 1) row.old) }
    ensures { row.new ≡
        end_flags text.now ++ drop (length text.now + 1) row.old }
{
    let mut p = 0;
    // Kept: (3) as in count_ends.
    while p < text.len() {
        p = cluster_end(text, p);
        row[p] = 1;
    }
}

// Writes 1 at each position of the text that is a cluster end, 0 at the others, and keeps the rest
// of the row. The row has a cell for each position, 0 and n among them.
pub fn tcc_flags(text: &[u32], row: &mut [u32])
    requires { length text.now < length row.old }
    ensures { row.new ≡
        end_flags text.now ++ drop (length text.now + 1) row.old }
{
    row[..text.len() + 1].fill(0);
    mark_ends(text, row);
}
