// Reading a dictionary, after trie_char.rs. No function asks anything of what it is lent.
#![tactic(auto)]

ghost use Rattle.std.specs.Prelude.{◌≡◌};
ghost use Rattle.refusal.specs.Answers.{output};
ghost use Rattle.trie_char_answers.specs.Answers.{contains_answer, prefixes, prefixes_answer, word_count_answer};

use refusal::Refusal;
use trie_check::{capacity, check, is_dictionary};
use trie_pool::NODE;
use trie_search::{count_words, mark_of, prefix_count};

// The class of the word if it is held. The word is taken as it is.
pub fn contain(pool: &[u32], word: &[u32]) -> Result<Option<u16>, Refusal>
    ensures { result ≡ contains_answer word.now pool.now }
{
    check(pool, word)?;
    let cells = NODE * capacity(pool.len());
    let mark = mark_of(&pool[..cells], word);
    if mark == 0 {
        return Ok(None);
    }
    Ok(Some((mark - 1) as u16))
}

// The lengths of the words that the text starts with, rising, at the front of out; accepted with
// their number.
pub fn prefix_lengths(pool: &[u32], text: &[u32], out: &mut [u32]) -> Result<usize, Refusal>
    ensures value { result ≡ prefixes_answer text.now pool.now out.old }
    ensures out_after { out.new ≡
        output result (prefixes text.now pool.now) out.old }
{
    check(pool, text)?;
    let cells = NODE * capacity(pool.len());
    let needed = prefix_count(&pool[..cells], text);
    if out.len() < needed {
        return Err(Refusal::OutputTooShort(needed));
    }
    let written = trie_search::prefix_lengths(&pool[..cells], text, out);
    Ok(written)
}

// How many words the dictionary holds.
pub fn amount_of_words(pool: &[u32]) -> Result<usize, Refusal>
    ensures { result ≡ word_count_answer pool.now }
{
    if !is_dictionary(pool) {
        return Err(Refusal::NotADictionary);
    }
    let cells = NODE * capacity(pool.len());
    Ok(count_words(&pool[..cells]))
}
