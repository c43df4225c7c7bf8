// The dictionaries of two plants in one pool, as hosts are told them.
#![tactic(auto)]

ghost use Rattle.std.specs.Prelude.{◌≡◌};
ghost use Rattle.host_telling.specs.Told.{told};
ghost use Rattle.host_plants.specs.Calls.{plant_of, StartTold, PlantAddTold, PlantRemoveTold};
ghost use Rattle.host_plants.specs.Calls.{PlantContainsTold, PlantPrefixesTold, PlantWordCountTold};

use host_telling::tell;
use host_words::{class_of, held};
use trie_plants::Plant;
use trie_plants_change::{add_in, remove_in};
use trie_plants_read::{amount_of_words_in, contain_in, prefix_lengths_in};

// Which plant a host means by its flag.
// Kept: (1), (4) the flag is C's. `Plant::from(true)` would not say which plant true is.
pub fn whose(b: bool) -> Plant
    ensures { result ≡ plant_of b }
{
    if b { Plant::B } else { Plant::A }
}

// Makes two dictionaries without words, each with a limit in nodes, whatever the cells held before.
// Refusals 8, 12.
pub fn start(
    pool: &mut [u32],
    limit_a: usize,
    limit_b: usize,
    count: &mut usize,
    detail: &mut usize,
) -> u32
    ensures { StartTold limit_a limit_b pool.old
        (told result count.new detail.new) pool.new }
{
    let made = trie_plants_change::start(pool, limit_a, limit_b);
    tell(made, count, detail)
}

// Adds the trimmed word with its class to a plant's own; accepted with 1 if its words or their
// classes changed, else 0. Refusals 2, 3, 4, 7, 8.
pub fn add(
    pool: &mut [u32],
    plant: Plant,
    word: &[u32],
    class: u16,
    count: &mut usize,
    detail: &mut usize,
) -> u32
    ensures { PlantAddTold plant word.now class pool.old
        (told result count.new detail.new) pool.new }
{
    let added = add_in(pool, plant, word, class);
    tell(added, count, detail)
}

// Removes the trimmed word from a plant's own; accepted with 1 if its words changed, else 0.
// Refusals 2, 3, 4, 7.
pub fn remove(
    pool: &mut [u32],
    plant: Plant,
    word: &[u32],
    count: &mut usize,
    detail: &mut usize,
) -> u32
    ensures { PlantRemoveTold plant word.now pool.old
        (told result count.new detail.new) pool.new }
{
    let removed = remove_in(pool, plant, word);
    tell(removed, count, detail)
}

// Accepted with 1 if the plant holds the word as it is, else 0; and the word's class: 0 with a no
// and with a refusal. Refusals 2, 3, 4.
pub fn contains(
    pool: &[u32],
    plant: Plant,
    word: &[u32],
    count: &mut usize,
    class: &mut usize,
    detail: &mut usize,
) -> u32
    ensures { PlantContainsTold plant word.now pool.now
        (told result count.new detail.new) class.new }
{
    let classed = contain_in(pool, plant, word);
    *class = class_of(classed);
    tell(held(classed), count, detail)
}

// The lengths of the plant's words that a text starts with, rising, at the front of out; accepted
// with their number. Refusals 2, 3, 4, 6.
pub fn prefix_lengths(
    pool: &[u32],
    plant: Plant,
    text: &[u32],
    out: &mut [u32],
    count: &mut usize,
    detail: &mut usize,
) -> u32
    ensures { PlantPrefixesTold plant text.now pool.now out.old
        (told result count.new detail.new) out.new }
{
    let lengths = prefix_lengths_in(pool, plant, text, out);
    tell(lengths, count, detail)
}

// Accepted with the number of the plant's words. Refusal 4.
pub fn word_count(pool: &[u32], plant: Plant, count: &mut usize, detail: &mut usize) -> u32
    ensures { PlantWordCountTold plant pool.now
        (told result count.new detail.new) }
{
    let words = amount_of_words_in(pool, plant);
    tell(words, count, detail)
}
