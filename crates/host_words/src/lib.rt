// The dictionary, as hosts are told it.
#![tactic(auto)]

ghost use Rattle.std.specs.Prelude.{◌≡◌};
ghost use Rattle.host_telling.specs.Told.{told};
ghost use Rattle.host_words.specs.Calls.{FreshTold, AddTold, RemoveTold, held_answer, class_told};
ghost use Rattle.host_words.specs.Calls.{ContainsTold, ContainsClassTold, PrefixesTold, WordCountTold};

// Kept: (2) a call for a plant (host_plants, host_plants_images) differs in the library's function and
// in what it promises; alike are one call and the telling, and a trait for both is longer than both.
use host_telling::tell;
use refusal::Refusal;
use trie_char_read::{amount_of_words, contain};

// Makes a dictionary without words, whatever the cells held before. Refusal 8.
pub fn fresh(pool: &mut [u32], count: &mut usize, detail: &mut usize) -> u32
    ensures { FreshTold pool.old
        (told result count.new detail.new) pool.new }
{
    let made = trie_char::fresh(pool);
    tell(made, count, detail)
}

// Adds the trimmed word with its class; accepted with 1 if the words or their classes changed, else
// 0. Refusals 2, 3, 4, 7, 8.
pub fn add_class(
    pool: &mut [u32],
    word: &[u32],
    class: u16,
    count: &mut usize,
    detail: &mut usize,
) -> u32
    ensures { AddTold word.now class pool.old
        (told result count.new detail.new) pool.new }
{
    let changed = trie_char::add_class(pool, word, class);
    tell(changed, count, detail)
}

// The same without a class, which means class 0.
pub fn add(pool: &mut [u32], word: &[u32], count: &mut usize, detail: &mut usize) -> u32
    ensures { AddTold word.now 0 pool.old
        (told result count.new detail.new) pool.new }
{
    let added = trie_char::add(pool, word);
    tell(added, count, detail)
}

// Removes the trimmed word; accepted with 1 if the words changed, else 0. Refusals 2, 3, 4, 7.
pub fn remove(pool: &mut [u32], word: &[u32], count: &mut usize, detail: &mut usize) -> u32
    ensures { RemoveTold word.now pool.old
        (told result count.new detail.new) pool.new }
{
    let removed = trie_char::remove(pool, word);
    tell(removed, count, detail)
}

// Whether a word is held, without its class: 1 or 0.
pub fn held(a: Result<Option<u16>, Refusal>) -> Result<usize, Refusal>
    ensures { result ≡ held_answer a }
{
    Ok(usize::from(a?.is_some()))
}

// The class that is told of a word: 0 with a no and with a refusal.
pub fn class_of(a: Result<Option<u16>, Refusal>) -> usize
    ensures { result ≡ class_told a }
{
    match a {
        Ok(Some(class)) => usize::from(class),
        _ => 0,
    }
}

// Accepted with 1 if the word is held as it is, else 0. Refusals 2, 3, 4.
pub fn contains(pool: &[u32], word: &[u32], count: &mut usize, detail: &mut usize) -> u32
    ensures { ContainsTold word.now pool.now
        (told result count.new detail.new) }
{
    let unclassed = held(contain(pool, word));
    tell(unclassed, count, detail)
}

// The same, and the word's class: 0 with a no and with a refusal.
pub fn contains_class(
    pool: &[u32],
    word: &[u32],
    count: &mut usize,
    class: &mut usize,
    detail: &mut usize,
) -> u32
    ensures { ContainsClassTold word.now pool.now
        (told result count.new detail.new) class.new }
{
    let classed = contain(pool, word);
    *class = class_of(classed);
    tell(held(classed), count, detail)
}

// The lengths of the words that a text starts with, rising, at the front of out; accepted with
// their number. Refusals 2, 3, 4, 6.
pub fn prefix_lengths(
    pool: &[u32],
    text: &[u32],
    out: &mut [u32],
    count: &mut usize,
    detail: &mut usize,
) -> u32
    ensures { PrefixesTold text.now pool.now out.old
        (told result count.new detail.new) out.new }
{
    let lengths = trie_char_read::prefix_lengths(pool, text, out);
    tell(lengths, count, detail)
}

// Accepted with the number of words. Refusal 4.
pub fn word_count(pool: &[u32], count: &mut usize, detail: &mut usize) -> u32
    ensures { WordCountTold pool.now
        (told result count.new detail.new) }
{
    let words = amount_of_words(pool);
    tell(words, count, detail)
}
