// The dictionary.
ghost use Rattle.host_telling.specs.Told.{told};
ghost use Rattle.host_words.specs.Calls.{FreshTold, AddTold, RemoveTold};
ghost use Rattle.host_words.specs.Calls.{ContainsTold, ContainsClassTold, PrefixesTold, WordCountTold};

// Makes a dictionary without words, whatever the cells held before. Refusal 8.
pub fn fetlockice_fresh(pool: &mut [u32], count: &mut usize, detail: &mut usize) -> u32
    ensures { FreshTold pool.old
        (told result count.new detail.new) pool.new }
{
    host_words::fresh(pool, count, detail)
}

// Adds the trimmed word with its class; accepted with 1 if the words or their classes changed, else
// 0. Refusals 2, 3, 4, 7, 8.
pub fn fetlockice_add_class(
    pool: &mut [u32],
    word: &[u32],
    class: u16,
    count: &mut usize,
    detail: &mut usize,
) -> u32
    ensures { AddTold word.now class pool.old
        (told result count.new detail.new) pool.new }
{
    host_words::add_class(pool, word, class, count, detail)
}

// The same without a class, which means class 0.
pub fn fetlockice_add(pool: &mut [u32], word: &[u32], count: &mut usize, detail: &mut usize) -> u32
    ensures { AddTold word.now 0 pool.old
        (told result count.new detail.new) pool.new }
{
    host_words::add(pool, word, count, detail)
}

// Removes the trimmed word; accepted with 1 if the words changed, else 0. Refusals 2, 3, 4, 7.
pub fn fetlockice_remove(
    pool: &mut [u32],
    word: &[u32],
    count: &mut usize,
    detail: &mut usize,
) -> u32
    ensures { RemoveTold word.now pool.old
        (told result count.new detail.new) pool.new }
{
    host_words::remove(pool, word, count, detail)
}

// Accepted with 1 if the word is held as it is, else 0. Refusals 2, 3, 4.
pub fn fetlockice_contains(pool: &[u32], word: &[u32], count: &mut usize, detail: &mut usize) -> u32
    ensures { ContainsTold word.now pool.now
        (told result count.new detail.new) }
{
    host_words::contains(pool, word, count, detail)
}

// The same, and the word's class: 0 with a no and with a refusal.
pub fn fetlockice_contains_class(
    pool: &[u32],
    word: &[u32],
    count: &mut usize,
    class: &mut usize,
    detail: &mut usize,
) -> u32
    ensures { ContainsClassTold word.now pool.now
        (told result count.new detail.new) class.new }
{
    host_words::contains_class(pool, word, count, class, detail)
}

// The lengths of the words that a text starts with, rising, at the front of out; accepted with
// their number. Refusals 2, 3, 4, 6.
pub fn fetlockice_prefix_lengths(
    pool: &[u32],
    text: &[u32],
    out: &mut [u32],
    count: &mut usize,
    detail: &mut usize,
) -> u32
    ensures { PrefixesTold text.now pool.now out.old
        (told result count.new detail.new) out.new }
{
    host_words::prefix_lengths(pool, text, out, count, detail)
}

// Accepted with the number of words. Refusal 4.
pub fn fetlockice_word_count(pool: &[u32], count: &mut usize, detail: &mut usize) -> u32
    ensures { WordCountTold pool.now
        (told result count.new detail.new) }
{
    host_words::word_count(pool, count, detail)
}
