// Reading the dictionary of one plant, after trie_char.rs. No function asks anything of what it is
// lent.
#![tactic(auto)]

ghost use Rattle.std.specs.Prelude.{◌≡◌};
ghost use Rattle.refusal.specs.Answers.{output};
ghost use Rattle.trie_plants_answers.specs.Answers.{plant_contains_answer, plant_prefixes};
ghost use Rattle.trie_plants_answers.specs.Answers.{plant_prefixes_answer, plant_count_answer};

use refusal::Refusal;
use trie_check::capacity;
use trie_plants::{Plant, half_at};
use trie_plants_check::{check_plant, is_plants};
use trie_pool::NODE;
use trie_search::{count_words, mark_of, prefix_count, prefix_lengths};

// The class of the word if the plant holds it. The word is taken as it is.
// Kept: (2) here and below: the plain call differs in its check and in the cells that it reads, and a
// trait for the two would need more members and laws than the five short calls have lines.
pub fn contain_in(pool: &[u32], plant: Plant, word: &[u32]) -> Result<Option<u16>, Refusal>
    ensures { result ≡ plant_contains_answer plant word.now pool.now }
{
    check_plant(pool, plant, word)?;
    let cells = NODE * capacity(pool.len());
    let at = half_at(plant);
    let mark = mark_of(&pool[at..cells], word);
    if mark == 0 {
        return Ok(None);
    }
    Ok(Some((mark - 1) as u16))
}

// The lengths of the plant's words that the text starts with, rising, at the front of out; accepted
// with their number.
pub fn prefix_lengths_in(
    pool: &[u32],
    plant: Plant,
    text: &[u32],
    out: &mut [u32],
) -> Result<usize, Refusal>
    ensures value { result ≡ plant_prefixes_answer plant text.now pool.now out.old }
    ensures out_after { out.new ≡
        output result (plant_prefixes plant text.now pool.now) out.old }
{
    check_plant(pool, plant, text)?;
    let cells = NODE * capacity(pool.len());
    let at = half_at(plant);
    let needed = prefix_count(&pool[at..cells], text);
    if out.len() < needed {
        return Err(Refusal::OutputTooShort(needed));
    }
    let written = prefix_lengths(&pool[at..cells], text, out);
    Ok(written)
}

// How many words the plant holds.
pub fn amount_of_words_in(pool: &[u32], plant: Plant) -> Result<usize, Refusal>
    ensures { result ≡ plant_count_answer plant pool.now }
{
    if !is_plants(pool) {
        return Err(Refusal::NotADictionary);
    }
    let cells = NODE * capacity(pool.len());
    let at = half_at(plant);
    Ok(count_words(&pool[at..cells]))
}
