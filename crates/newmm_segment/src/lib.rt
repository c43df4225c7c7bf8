// Cutting in parts, after `segment_single` of newmm.rs.
#![tactic(auto)]

ghost use Rattle.std.specs.Prelude.{◌≡◌, ℕ, ◌+◌, ◌≤◌, List, length, replicate};
ghost use Rattle.trie_pool.specs.Words.{holds};
ghost use Rattle.newmm_rules.specs.Limits.{text_scan_begin, text_scan_end};
ghost use Rattle.newmm_rules.specs.Longest.{lengths, before_longest};
ghost use Rattle.newmm_answers.specs.Answers.{plain_cut, cut_of};
ghost use Rattle.trie_pool.specs.Meaning.{Words};
ghost use Rattle.newmm_segment.specs.inner.Written.{Rising, Ready, Written, Sampled, FirstTold, space_cut_of, AsManyAsEnds, told_cut, all_told, ends_told, ends_as_many};

use cells::shift;
use char_string_last_space::rfind_space_char_index;
use newmm_one_cut::one_cut;
use newmm_rules::{Ends, Mode, TEXT_SCAN_BEGIN, TEXT_SCAN_END};

// Safe mode cuts right behind the index of the last space in the sample, which isn't shifted by the
// sample's begin.
pub const UNSHIFTED: usize = 1;

// The profile "sheet" cuts right behind that space itself.
pub const BEHIND_SPACE: usize = 101;

// Where a part ends, `at` behind `from`, and the edges that were recorded to find that.
#[derive(Clone, Copy)]
pub struct PartEnd {
    pub from: usize,
    pub at: usize,
    pub edges: usize,
}

// A part: how many characters it has, the number of its ends, and the edges recorded in it and in
// its sample.
#[derive(Clone, Copy)]
pub struct Part {
    pub size: usize,
    pub ends: usize,
    pub edges: usize,
}

// How far behind the index of the last space in a sample a mode cuts; none where it cuts a text as
// a whole.
pub fn space_cut(mode: Mode) -> Option<usize>
    ensures { result ≡ space_cut_of mode }
{
    match mode {
        Mode::Plain => None,
        Mode::Safe => Some(UNSHIFTED),
        Mode::Sheet => Some(BEHIND_SPACE),
    }
}

// What is written of a part: as many cells as it has ends.
pub trait PartWriter {
    ghost told: { Words → ℕ → List ℕ → List ℕ };

    ghost as_many: { AsManyAsEnds told };

    // Cuts a part that starts at `start` plainly, and writes it at the front of the row, whose other
    // cells are as they were.
    fn write(part: &[u32], pool: &[u32], row: &mut [u32], start: usize) -> Ends
        requires { Ready part.now pool.now row.old × (start + length part.now ≤ 65535) }
        ensures { Written (told_cut (told (holds pool.now)) (plain_cut (holds pool.now)) start part.now)
            row.old row.new result };
}

// Where the longest token of a sample starts, the last of equals. The sample's ends are cleared on
// the way.
fn longest_start(ends: &mut [u32]) -> usize
    requires { Rising ends.old }
    ensures value { result ≡ before_longest (lengths 0 ends.old) }
    ensures cleared { ends.new ≡ replicate (length ends.old) 0 }
{
    let mut start = 0;
    let mut most = 0;
    let mut from = 0;
    for end in ends.iter_mut() {
        let begin = from;
        from = *end as usize;
        *end = 0;
        if most <= from - begin {
            start = begin;
            most = from - begin;
        }
    }
    start
}

// Kept: (5) text, pool and row go together, but `segment_single`, which docs/TRACE.md names, takes
// them as rows and may ask no more: a struct of them would be made anew for each part.

// Where the remaining text, of 140 characters or more, is cut: where its sample has a space,
// `space_cut` behind the index of the last one in the sample. That is 1 where the index isn't
// shifted by the sample's begin, and 101 where it is: more could lie behind the text's end.
// The row comes back as it was.
pub fn cut_at(rest: &[u32], pool: &[u32], row: &mut [u32], space_cut: usize) -> PartEnd
    requires { Ready rest.now pool.now row.old × (text_scan_end ≤ length rest.now) }
    ensures sampled { Sampled (λ (i : ℕ). i + space_cut) (plain_cut (holds pool.now))
        rest.now result }
    ensures row_unchanged { row.new ≡ row.old }
{
    let sample = &rest[TEXT_SCAN_BEGIN..TEXT_SCAN_END];
    match rfind_space_char_index(sample) {
        Some(i) => PartEnd {
            from: space_cut,
            at: i,
            edges: 0,
        },
        None => {
            let r = one_cut(sample, pool, row);
            let at = longest_start(&mut row[..r.ends]);
            PartEnd {
                from: TEXT_SCAN_BEGIN,
                at,
                edges: r.edges,
            }
        }
    }
}

// Cuts the first part off the remaining text, which starts at `start` and has 140 characters or
// more.
fn first_part<W: PartWriter>(
    rest: &[u32],
    pool: &[u32],
    row: &mut [u32],
    start: usize,
    space_cut: usize,
) -> Part
    requires { Ready rest.now pool.now row.old × (text_scan_end ≤ length rest.now) × (1 ≤ space_cut)
        × (space_cut ≤ text_scan_begin + 1) × (start + length rest.now ≤ 65535) }
    ensures { FirstTold (λ (i : ℕ). i + space_cut) (plain_cut (holds pool.now))
        (W.told (holds pool.now)) rest.now start row.old row.new result }
{
    let cut = cut_at(rest, pool, row, space_cut);
    let size = cut.at + cut.from;
    let r = W::write(&rest[..size], pool, row, start);
    Part {
        size,
        ends: r.ends,
        edges: cut.edges + r.edges,
    }
}

// Cuts a text of 140 characters or more in parts. Each is written straight behind the part before.
pub fn in_parts<W: PartWriter>(
    text: &[u32],
    pool: &[u32],
    row: &mut [u32],
    space_cut: usize,
) -> Ends
    requires { Ready text.now pool.now row.old × (text_scan_end ≤ length text.now) × (1 ≤ space_cut)
        × (space_cut ≤ text_scan_begin + 1) }
    ensures { Written
        (all_told (λ (i : ℕ). i + space_cut) (plain_cut (holds pool.now)) (W.told (holds pool.now)) text.now)
        row.old row.new result }
{
    let mut start = 0;
    let mut count = 0;
    let mut edges = 0;
    // Kept: (3) text and row move on by what each part takes, so no iterator is plainer.
    while TEXT_SCAN_END <= text.len() - start {
        let p = first_part::<W>(&text[start..], pool, &mut row[count..], start, space_cut);
        start += p.size;
        count += p.ends;
        edges += p.edges;
    }
    let r = W::write(&text[start..], pool, &mut row[count..], start);
    Ends {
        ends: count + r.ends,
        edges: edges + r.edges,
    }
}

// A part's ends, shifted by where it starts.
struct PartEnds;

impl PartWriter for PartEnds {
    ghost told = { ends_told };

    ghost as_many = { ends_as_many };

    fn write(part: &[u32], pool: &[u32], row: &mut [u32], start: usize) -> Ends {
        let r = one_cut(part, pool, row);
        shift(row, r.ends, start);
        r
    }
}

// Cuts a text in a mode: the ends stand at the front of the row, whose other cells are as they
// were.
pub fn segment_single(text: &[u32], pool: &[u32], row: &mut [u32], mode: Mode) -> Ends
    requires { Ready text.now pool.now row.old }
    ensures { Written (cut_of mode (holds pool.now) text.now)
        row.old row.new result }
{
    if text.len() < TEXT_SCAN_END {
        return one_cut(text, pool, row);
    }
    let Some(space_cut) = space_cut(mode) else {
        return one_cut(text, pool, row);
    };
    in_parts::<PartEnds>(text, pool, row, space_cut)
}
