// Changing a plants' pool: its start, and the words of one plant. No public function asks anything
// of what it is lent.
#![tactic(auto)]

ghost use Rattle.std.specs.Prelude.{◌-◌, ◌≤◌, ◌<◌, ◌≡◌, length, get_or};
ghost use Rattle.trie_pool.specs.Cells.{used};
ghost use Rattle.trie_plants_answers.specs.Answers.{start_answer};
ghost use Rattle.trie_plants_answers.specs.Answers.{plant_add_answer, plant_added, plant_remove_answer, plant_removed};
ghost use Rattle.trie_plants_answers.specs.Changes.{PlantAfter, Started};

use char_string_trim::trimmed;
use refusal::Refusal;
use trie_change::{add_word, remove_word, reset};
use trie_check::capacity;
use trie_plants::{Plant, half_at};
use trie_plants_check::check_plant_word;
use trie_pool::{FIRST, HALF, IN_USE, MARK, NODE};
use trie_search::{mark_of, missing};

// Makes a pool of two plants without words, whatever the cells held before. The limits, in nodes,
// sum to at most capacity less one.
pub fn start(pool: &mut [u32], limit_a: usize, limit_b: usize) -> Result<usize, Refusal>
    ensures value { result ≡ start_answer limit_a limit_b pool.old }
    ensures started { Started result limit_a limit_b pool.old pool.new }
{
    if pool.len() < NODE {
        return Err(Refusal::TooFewNodes(1));
    }
    let nodes = capacity(pool.len());
    let room = nodes - 1;
    if room < limit_a {
        return Err(Refusal::LimitsTooLarge);
    }
    if room - limit_a < limit_b {
        return Err(Refusal::LimitsTooLarge);
    }
    let a = (limit_a + 1) as u32;
    let b = (limit_b + 1) as u32;
    let cells = NODE * nodes;
    reset(&mut pool[..cells]);
    pool[MARK] = a;
    pool[HALF + IN_USE] = 1;
    pool[HALF + FIRST] = 1;
    pool[HALF + MARK] = b;
    Ok(0)
}

// The nodes that the plant may still take: its limit less its charge.
fn free_nodes(half: &[u32]) -> usize
    requires { (3 < length half.now) × (used half.now ≤ get_or half.now 3 0) }
    ensures { result ≡ get_or half.now 3 0 - used half.now }
{
    half[MARK] as usize - half[IN_USE] as usize
}

// Kept: (2) here and below: the plain call counts free nodes by capacity and a plant by its limit,
// and only the search and the change of the cells are the same, which both call.
// Adds the trimmed word to the plant's words with its class, or gives a word that it holds this
// class; 1 if its words or their classes changed, else 0.
pub fn add_in(pool: &mut [u32], plant: Plant, word: &[u32], class: u16) -> Result<usize, Refusal>
    ensures value { result ≡ plant_add_answer plant word.now class pool.old }
    ensures plant_after { PlantAfter plant result pool.old pool.new
        (plant_added plant word.now class pool.old) }
{
    check_plant_word(pool, plant, word)?;
    let w = trimmed(word);
    let cells = NODE * capacity(pool.len());
    let a = half_at(plant);
    let more = missing(&pool[a..cells], w);
    let free = free_nodes(&pool[a..cells]);
    if free < more {
        let over = more - free;
        return Err(Refusal::TooFewNodes(over));
    }
    if w.len() == 0 {
        return Ok(0);
    }
    let mark = class as u32 + 1;
    if mark_of(&pool[a..cells], w) == mark {
        return Ok(0);
    }
    add_word(&mut pool[a..cells], w, mark);
    Ok(1)
}

// Removes the trimmed word from the plant's words; 1 if they changed, else 0.
pub fn remove_in(pool: &mut [u32], plant: Plant, word: &[u32]) -> Result<usize, Refusal>
    ensures value { result ≡ plant_remove_answer plant word.now pool.old }
    ensures plant_after { PlantAfter plant result pool.old pool.new
        (plant_removed plant word.now pool.old) }
{
    check_plant_word(pool, plant, word)?;
    let w = trimmed(word);
    let cells = NODE * capacity(pool.len());
    let a = half_at(plant);
    if mark_of(&pool[a..cells], w) == 0 {
        return Ok(0);
    }
    remove_word(&mut pool[a..cells], 0, w);
    Ok(1)
}
