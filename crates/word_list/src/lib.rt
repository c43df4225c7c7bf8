// A dictionary's words by an image. The function asks nothing of what it is lent.
#![tactic(auto)]

ghost use Rattle.std.specs.Prelude.{◌≡◌};
ghost use Rattle.trie_char_answers.specs.Changes.{After};
ghost use Rattle.word_list_answers.specs.Answers.{read_answer, image_terms};

use image_build::replace;
use refusal::Refusal;
use trie_check::{capacity, is_dictionary};
use trie_pool::NODE;

// Replaces the words of a dictionary and their classes by those of an image; accepted with their
// number. Refusals 4, 9, 8.
pub fn read_image(pool: &mut [u32], image: &[u8]) -> Result<usize, Refusal>
    ensures value { result ≡ read_answer image.now pool.old }
    ensures after { After result pool.old pool.new (image_terms image.now) }
{
    if !is_dictionary(pool) {
        return Err(Refusal::NotADictionary);
    }
    let room = capacity(pool.len());
    replace(&mut pool[..NODE * room], image, room)
}
