// A dictionary's words as an image. The function asks nothing of what it is lent.
#![tactic(auto)]

ghost use Rattle.std.specs.Prelude.{◌≡◌};
ghost use Rattle.refusal.specs.Answers.{output};
ghost use Rattle.word_list_write.specs.Answers.{image_in, write_answer};

use image_write::write_dictionary;
use refusal::Refusal;
use trie_check::{capacity, is_dictionary};
use trie_pool::NODE;

// Writes the words of a dictionary and their classes as an image to the front of out; accepted with
// its bytes. Refusals 4, 6.
pub fn write_image(pool: &[u32], out: &mut [u8]) -> Result<usize, Refusal>
    ensures value { result ≡ write_answer pool.now out.old }
    ensures out_after { out.new ≡ output result (image_in pool.now) out.old }
{
    if !is_dictionary(pool) {
        return Err(Refusal::NotADictionary);
    }
    let cells = NODE * capacity(pool.len());
    write_dictionary(&pool[..cells], out)
}
