// The search for words at every place of a text, with one check of the pool: for bench/run.
#![tactic(auto)]

ghost use Rattle.bench_prefix_search.specs.Places.{Searched};

use trie_check::{capacity, is_dictionary};
use trie_search::prefix_lengths;

// Writes at each place the lengths of the words that start there to the front of out, over those of
// the place before, and returns their number in all. A pool that is no dictionary, a text of over
// 65,535 cells and an output shorter than the text are not searched: 0, and out is as it was.
#[unsafe(no_mangle)]
pub extern "C" fn search_places(pool: &[u32], text: &[u32], out: &mut [u32]) -> usize
    ensures { Searched pool.now text.now out.old out.new result }
{
    if 65535 < text.len() {
        return 0;
    }
    if out.len() < text.len() {
        return 0;
    }
    if !is_dictionary(pool) {
        return 0;
    }
    let cells = 8 * capacity(pool.len());
    let mut found: usize = 0;
    let mut place: usize = 0;
    while place < text.len() {
        let more = prefix_lengths(&pool[..cells], &text[place..], out);
        found += more;
        place += 1;
    }
    found
}
