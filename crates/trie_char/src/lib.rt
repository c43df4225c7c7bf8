// Changing a dictionary, after trie_char.rs: a trie in a lent pool. No function asks anything of
// what it is lent.
#![tactic(auto)]

ghost use Rattle.std.specs.Prelude.{◌≡◌};
ghost use Rattle.trie_pool.specs.Meaning.{no_term};
ghost use Rattle.trie_char_answers.specs.Answers.{fresh_answer, add_answer, added, remove_answer, removed};
ghost use Rattle.trie_char_answers.specs.Changes.{After};

use char_string_trim::trimmed;
use refusal::Refusal;
use trie_change::{add_word, remove_word, reset};
use trie_char_answers::check_word;
use trie_check::capacity;
use trie_pool::NODE;
use trie_search::{mark_of, missing, nodes_in_use};

// Makes a dictionary without words, whatever the cells held before.
pub fn fresh(pool: &mut [u32]) -> Result<usize, Refusal>
    ensures value { result ≡ fresh_answer pool.old }
    ensures after { After result pool.old pool.new no_term }
{
    if pool.len() < NODE {
        return Err(Refusal::TooFewNodes(1));
    }
    let cells = NODE * capacity(pool.len());
    reset(&mut pool[..cells]);
    Ok(0)
}

// Adds the trimmed word with its class, or gives a word that is held this class; 1 if the words or
// their classes changed, else 0.
pub fn add_class(pool: &mut [u32], word: &[u32], class: u16) -> Result<usize, Refusal>
    ensures value { result ≡ add_answer word.now class pool.old }
    ensures after { After result pool.old pool.new
        (added word.now class pool.old) }
{
    check_word(pool, word)?;
    let w = trimmed(word);
    let nodes = capacity(pool.len());
    let cells = NODE * nodes;
    let more = missing(&pool[..cells], w);
    let free = nodes - nodes_in_use(pool);
    if free < more {
        let short = more - free;
        return Err(Refusal::TooFewNodes(short));
    }
    if w.len() == 0 {
        return Ok(0);
    }
    let mark = class as u32 + 1;
    if mark_of(&pool[..cells], w) == mark {
        return Ok(0);
    }
    add_word(&mut pool[..cells], w, mark);
    Ok(1)
}

// Adds the trimmed word without a class, which means class 0.
pub fn add(pool: &mut [u32], word: &[u32]) -> Result<usize, Refusal>
    ensures value { result ≡ add_answer word.now 0 pool.old }
    ensures after { After result pool.old pool.new
        (added word.now 0 pool.old) }
{
    add_class(pool, word, 0)
}

// Removes the trimmed word; 1 if the words changed, else 0.
pub fn remove(pool: &mut [u32], word: &[u32]) -> Result<usize, Refusal>
    ensures value { result ≡ remove_answer word.now pool.old }
    ensures after { After result pool.old pool.new
        (removed word.now pool.old) }
{
    check_word(pool, word)?;
    let w = trimmed(word);
    let cells = NODE * capacity(pool.len());
    if mark_of(&pool[..cells], w) == 0 {
        return Ok(0);
    }
    remove_word(&mut pool[..cells], 0, w);
    Ok(1)
}
