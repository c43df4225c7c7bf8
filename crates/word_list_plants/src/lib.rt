// A plant's words by an image. The function asks nothing of what it is lent.
#![tactic(auto)]

ghost use Rattle.std.specs.Prelude.{◌≡◌};
ghost use Rattle.trie_plants_answers.specs.Changes.{PlantAfter};
ghost use Rattle.word_list_answers.specs.Answers.{image_terms};
ghost use Rattle.word_list_plants.specs.Answers.{plant_read_answer};

use image_build::replace;
use refusal::Refusal;
use trie_check::capacity;
use trie_plants::{Plant, half_at};
use trie_plants_check::is_plants;
use trie_pool::{MARK, NODE};

// Replaces the words of a plant and their classes by those of an image; accepted with their number.
// Refusals 4, 9, 8.
pub fn read_image_in(pool: &mut [u32], plant: Plant, image: &[u8]) -> Result<usize, Refusal>
    ensures value { result ≡ plant_read_answer plant image.now pool.old }
    ensures plant_after { PlantAfter plant result pool.old pool.new (image_terms image.now) }
{
    if !is_plants(pool) {
        return Err(Refusal::NotADictionary);
    }
    let a = half_at(plant);
    // The limit and one, for the root.
    let room = pool[a + MARK] as usize;
    let cells = NODE * capacity(pool.len());
    replace(&mut pool[a..cells], image, room)
}
