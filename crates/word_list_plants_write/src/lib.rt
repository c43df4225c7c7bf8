// A plant's words as an image. The function asks nothing of what it is lent.
#![tactic(auto)]

ghost use Rattle.std.specs.Prelude.{◌≡◌};
ghost use Rattle.refusal.specs.Answers.{output};
ghost use Rattle.word_list_plants_write.specs.Answers.{plant_image, plant_write_answer};

use image_write::write_dictionary;
use refusal::Refusal;
use trie_check::capacity;
use trie_plants::{Plant, half_at};
use trie_plants_check::is_plants;
use trie_pool::NODE;

// Writes the words of a plant and their classes as an image to the front of out; accepted with its
// bytes. Refusals 4, 6.
pub fn write_image_in(pool: &[u32], plant: Plant, out: &mut [u8]) -> Result<usize, Refusal>
    ensures value { result ≡ plant_write_answer plant pool.now out.old }
    ensures out_after { out.new ≡ output result (plant_image plant pool.now) out.old }
{
    if !is_plants(pool) {
        return Err(Refusal::NotADictionary);
    }
    let cells = NODE * capacity(pool.len());
    let a = half_at(plant);
    write_dictionary(&pool[a..cells], out)
}
