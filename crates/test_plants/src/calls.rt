// A call of either plant, or a plain one.
use newmm::cut;
use newmm_plants::cut_in;
use newmm_plants_reasons::cut_reasons_in;
use newmm_reasons::cut_reasons;
use newmm_rules::{Ends, Mode};
use refusal::Refusal;
use trie_char::{add_class, remove};
use trie_char_read::{amount_of_words, contain, prefix_lengths};
use trie_plants::Plant;
use trie_plants_change::{add_in, remove_in};
use trie_plants_read::{amount_of_words_in, contain_in, prefix_lengths_in};
use word_list::read_image;
use word_list_plants::read_image_in;
use word_list_plants_write::write_image_in;
use word_list_write::write_image;

// Kept: (2, 7) what is tested are two public functions with contracts of their own for each call.
// The plant whose words are meant; none in a plain pool.
pub type Whose = Option<Plant>;

pub fn add(whose: Whose, pool: &mut [u32], word: &[u32], class: u16) -> Result<usize, Refusal> {
    match whose {
        None => add_class(pool, word, class),
        Some(plant) => add_in(pool, plant, word, class),
    }
}

pub fn take(whose: Whose, pool: &mut [u32], word: &[u32]) -> Result<usize, Refusal> {
    match whose {
        None => remove(pool, word),
        Some(plant) => remove_in(pool, plant, word),
    }
}

pub fn held(whose: Whose, pool: &[u32], word: &[u32]) -> Result<Option<u16>, Refusal> {
    match whose {
        None => contain(pool, word),
        Some(plant) => contain_in(pool, plant, word),
    }
}

pub fn lengths(
    whose: Whose,
    pool: &[u32],
    text: &[u32],
    out: &mut [u32],
) -> Result<usize, Refusal> {
    match whose {
        None => prefix_lengths(pool, text, out),
        Some(plant) => prefix_lengths_in(pool, plant, text, out),
    }
}

pub fn amount(whose: Whose, pool: &[u32]) -> Result<usize, Refusal> {
    match whose {
        None => amount_of_words(pool),
        Some(plant) => amount_of_words_in(pool, plant),
    }
}

pub fn ends(
    whose: Whose,
    text: &[u32],
    pool: &[u32],
    out: &mut [u32],
    scratch: &mut [u32],
    mode: Mode,
) -> Result<Ends, Refusal> {
    match whose {
        None => cut(text, pool, out, scratch, mode),
        Some(plant) => cut_in(text, pool, plant, out, scratch, mode),
    }
}

pub fn reasons(
    whose: Whose,
    text: &[u32],
    pool: &[u32],
    out: &mut [u32],
    scratch: &mut [u32],
    mode: Mode,
) -> Result<Ends, Refusal> {
    match whose {
        None => cut_reasons(text, pool, out, scratch, mode),
        Some(plant) => cut_reasons_in(text, pool, plant, out, scratch, mode),
    }
}

pub fn read(whose: Whose, pool: &mut [u32], image: &[u8]) -> Result<usize, Refusal> {
    match whose {
        None => read_image(pool, image),
        Some(plant) => read_image_in(pool, plant, image),
    }
}

pub fn write(whose: Whose, pool: &[u32], out: &mut [u8]) -> Result<usize, Refusal> {
    match whose {
        None => write_image(pool, out),
        Some(plant) => write_image_in(pool, plant, out),
    }
}
