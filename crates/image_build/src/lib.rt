// Makes a dictionary that of an image that is as said. It stands in one half of a pool's nodes, and
// what is beside it stays.
#![tactic(auto)]

ghost use Rattle.std.specs.Prelude.{◌≡◌, ◌+◌};
ghost use Rattle.trie_pool.specs.Cells.{used};
ghost use Rattle.trie_leaf.specs.inner.Planting.{Beside};
ghost use Rattle.image_place.specs.inner.Placing.{Placed};
ghost use Rattle.image_build.specs.inner.Building.{Clears, Cleared, Builds, Roomy, Replaced};
ghost use Rattle.word_list_answers.specs.Answers.{replace_answer};

use image_place::place;
use image_read::{Surveyed, survey};
use image_starts::starts;
use refusal::Refusal;
use trie_pool::{COUNT, HALF, IN_USE, NODE};

// Sets the cells of the first n nodes to 0, but not the root's.
fn clear_nodes(p: &mut [u32], n: usize)
    requires { Clears p.old n }
    ensures { Cleared p.old p.new n }
{
    for i in 1..n {
        p[NODE * i..NODE * i + HALF].fill(0);
    }
}

// Empties the dictionary, then puts in the words of the image that was surveyed. The children of
// the root stand from node 1 on, as before.
pub fn build(p: &mut [u32], image: &[u8], found: &Surveyed)
    requires { Builds image.now p.old found.now.levels (1 + found.now.nodes) }
    ensures placed { Placed image.now p.new }
    ensures beside { Beside p.old p.new }
    ensures used_after { used p.new ≡ 1 + found.now.nodes }
{
    let mut next = found.levels;
    starts(&mut next);
    let nodes = p[IN_USE] as usize;
    clear_nodes(p, nodes);
    p[IN_USE] = (1 + found.nodes) as u32;
    p[COUNT] = 0;
    place(p, image, &mut next);
}

// Replaces the words of a dictionary that may have `room` nodes, and their classes, by those of an
// image; accepted with their number. Refusals 9, 8.
pub fn replace(p: &mut [u32], image: &[u8], room: usize) -> Result<usize, Refusal>
    requires { Roomy p.old room }
    ensures value { result ≡ replace_answer image.now room }
    ensures after { Replaced result image.now p.old p.new room }
{
    let found = survey(image).map_err(Refusal::BadImage)?;
    let n = 1 + found.nodes;
    if room < n {
        return Err(Refusal::TooFewNodes(n - room));
    }
    build(p, image, &found);
    Ok(found.words)
}
