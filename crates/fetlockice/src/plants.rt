// Two plants in one pool: `plant_b` says whose words a call reads and changes, false those of plant
// A, true those of plant B.
ghost use Rattle.newmm_rules.specs.declared.Mode.TheVariants.{Plain, Safe, Sheet};
ghost use Rattle.newmm_answers.specs.Calls.{call};
ghost use Rattle.host_telling.specs.Told.{told, told_cut};
ghost use Rattle.host_plants.specs.Calls.{plant_of, StartTold, PlantAddTold, PlantRemoveTold};
ghost use Rattle.host_plants.specs.Calls.{PlantContainsTold, PlantPrefixesTold, PlantWordCountTold};
ghost use Rattle.host_plants_cuts.specs.Calls.{PlantCutTold, PlantReasonsTold};
ghost use Rattle.host_plants_images.specs.Calls.{PlantReadImageTold, PlantWriteImageTold};

use host_plants::whose;
use newmm_rules::Mode::{Plain, Safe, Sheet};

// Makes two dictionaries without words, each with a limit in nodes, whatever the cells held before.
// Refusals 8, 12.
pub fn fetlockice_plants_start(
    pool: &mut [u32],
    limit_a: usize,
    limit_b: usize,
    count: &mut usize,
    detail: &mut usize,
) -> u32
    ensures { StartTold limit_a limit_b pool.old
        (told result count.new detail.new) pool.new }
{
    host_plants::start(pool, limit_a, limit_b, count, detail)
}

// Adds the trimmed word with its class to a plant's own; accepted with 1 if its words or their
// classes changed, else 0. Refusals 2, 3, 4, 7, 8.
pub fn fetlockice_plant_add(
    pool: &mut [u32],
    plant_b: bool,
    word: &[u32],
    class: u16,
    count: &mut usize,
    detail: &mut usize,
) -> u32
    ensures { PlantAddTold (plant_of plant_b) word.now class pool.old
        (told result count.new detail.new) pool.new }
{
    let plant = whose(plant_b);
    host_plants::add(pool, plant, word, class, count, detail)
}

// Removes the trimmed word from a plant's own; accepted with 1 if its words changed, else 0.
// Refusals 2, 3, 4, 7.
pub fn fetlockice_plant_remove(
    pool: &mut [u32],
    plant_b: bool,
    word: &[u32],
    count: &mut usize,
    detail: &mut usize,
) -> u32
    ensures { PlantRemoveTold (plant_of plant_b) word.now pool.old
        (told result count.new detail.new) pool.new }
{
    let plant = whose(plant_b);
    host_plants::remove(pool, plant, word, count, detail)
}

// Accepted with 1 if the plant holds the word as it is, else 0; and the word's class: 0 with a no
// and with a refusal. Refusals 2, 3, 4.
pub fn fetlockice_plant_contains(
    pool: &[u32],
    plant_b: bool,
    word: &[u32],
    count: &mut usize,
    class: &mut usize,
    detail: &mut usize,
) -> u32
    ensures { PlantContainsTold (plant_of plant_b) word.now pool.now
        (told result count.new detail.new) class.new }
{
    let plant = whose(plant_b);
    host_plants::contains(pool, plant, word, count, class, detail)
}

// The lengths of the plant's words that a text starts with, rising, at the front of out; accepted
// with their number. Refusals 2, 3, 4, 6.
pub fn fetlockice_plant_prefix_lengths(
    pool: &[u32],
    plant_b: bool,
    text: &[u32],
    out: &mut [u32],
    count: &mut usize,
    detail: &mut usize,
) -> u32
    ensures { PlantPrefixesTold (plant_of plant_b) text.now pool.now out.old
        (told result count.new detail.new) out.new }
{
    let plant = whose(plant_b);
    host_plants::prefix_lengths(pool, plant, text, out, count, detail)
}

// Accepted with the number of the plant's words. Refusal 4.
pub fn fetlockice_plant_word_count(
    pool: &[u32],
    plant_b: bool,
    count: &mut usize,
    detail: &mut usize,
) -> u32
    ensures { PlantWordCountTold (plant_of plant_b) pool.now
        (told result count.new detail.new) }
{
    let plant = whose(plant_b);
    host_plants::word_count(pool, plant, count, detail)
}

// Cuts a text plainly by the words of a plant: the ends of its tokens, in characters, at the front
// of out; accepted with their number and that of the edges. Refusals 2 to 6.
pub fn fetlockice_plant_cut_plain(
    text: &[u32],
    pool: &[u32],
    plant_b: bool,
    out: &mut [u32],
    scratch: &mut [u32],
    count: &mut usize,
    edges: &mut usize,
    detail: &mut usize,
) -> u32
    ensures { PlantCutTold (plant_of plant_b)
        (call text.now pool.now out.old scratch.old Plain)
        (told_cut result count.new edges.new detail.new)
        out.new scratch.new }
{
    let plant = whose(plant_b);
    host_plants_cuts::cut(text, pool, plant, out, scratch, Plain, count, edges, detail)
}

// The same in safe mode.
pub fn fetlockice_plant_cut_safe(
    text: &[u32],
    pool: &[u32],
    plant_b: bool,
    out: &mut [u32],
    scratch: &mut [u32],
    count: &mut usize,
    edges: &mut usize,
    detail: &mut usize,
) -> u32
    ensures { PlantCutTold (plant_of plant_b)
        (call text.now pool.now out.old scratch.old Safe)
        (told_cut result count.new edges.new detail.new)
        out.new scratch.new }
{
    let plant = whose(plant_b);
    host_plants_cuts::cut(text, pool, plant, out, scratch, Safe, count, edges, detail)
}

// The same by the profile "sheet".
pub fn fetlockice_plant_cut_sheet(
    text: &[u32],
    pool: &[u32],
    plant_b: bool,
    out: &mut [u32],
    scratch: &mut [u32],
    count: &mut usize,
    edges: &mut usize,
    detail: &mut usize,
) -> u32
    ensures { PlantCutTold (plant_of plant_b)
        (call text.now pool.now out.old scratch.old Sheet)
        (told_cut result count.new edges.new detail.new)
        out.new scratch.new }
{
    let plant = whose(plant_b);
    host_plants_cuts::cut(text, pool, plant, out, scratch, Sheet, count, edges, detail)
}

// Cuts a text plainly by the words of a plant, with reasons: for each token a pair of cells at the
// front of pairs, its end in characters and its reason; accepted with the number of pairs and that
// of the edges. Refusals 2 to 6; 6 counts pairs.
pub fn fetlockice_plant_reasons_plain(
    text: &[u32],
    pool: &[u32],
    plant_b: bool,
    pairs: &mut [u32],
    scratch: &mut [u32],
    count: &mut usize,
    edges: &mut usize,
    detail: &mut usize,
) -> u32
    ensures { PlantReasonsTold (plant_of plant_b)
        (call text.now pool.now pairs.old scratch.old Plain)
        (told_cut result count.new edges.new detail.new)
        pairs.new scratch.new }
{
    let plant = whose(plant_b);
    host_plants_cuts::cut_reasons(
        text, pool, plant, pairs, scratch, Plain, count, edges, detail,
    )
}

// The same in safe mode. A reason is about the part.
pub fn fetlockice_plant_reasons_safe(
    text: &[u32],
    pool: &[u32],
    plant_b: bool,
    pairs: &mut [u32],
    scratch: &mut [u32],
    count: &mut usize,
    edges: &mut usize,
    detail: &mut usize,
) -> u32
    ensures { PlantReasonsTold (plant_of plant_b)
        (call text.now pool.now pairs.old scratch.old Safe)
        (told_cut result count.new edges.new detail.new)
        pairs.new scratch.new }
{
    let plant = whose(plant_b);
    host_plants_cuts::cut_reasons(
        text, pool, plant, pairs, scratch, Safe, count, edges, detail,
    )
}

// The same by the profile "sheet".
pub fn fetlockice_plant_reasons_sheet(
    text: &[u32],
    pool: &[u32],
    plant_b: bool,
    pairs: &mut [u32],
    scratch: &mut [u32],
    count: &mut usize,
    edges: &mut usize,
    detail: &mut usize,
) -> u32
    ensures { PlantReasonsTold (plant_of plant_b)
        (call text.now pool.now pairs.old scratch.old Sheet)
        (told_cut result count.new edges.new detail.new)
        pairs.new scratch.new }
{
    let plant = whose(plant_b);
    host_plants_cuts::cut_reasons(
        text, pool, plant, pairs, scratch, Sheet, count, edges, detail,
    )
}

// Replaces the words of a plant and their classes by those of an image; accepted with their number.
// Refusals 4, 9, 8.
pub fn fetlockice_plant_read_image(
    pool: &mut [u32],
    plant_b: bool,
    image: &[u8],
    count: &mut usize,
    detail: &mut usize,
) -> u32
    ensures { PlantReadImageTold (plant_of plant_b) image.now pool.old
        (told result count.new detail.new) pool.new }
{
    let plant = whose(plant_b);
    host_plants_images::read_image(pool, plant, image, count, detail)
}

// Writes the words of a plant and their classes as an image to the front of out; accepted with its
// bytes. Refusals 4, 6.
pub fn fetlockice_plant_write_image(
    pool: &[u32],
    plant_b: bool,
    out: &mut [u8],
    count: &mut usize,
    detail: &mut usize,
) -> u32
    ensures { PlantWriteImageTold (plant_of plant_b) pool.now out.old
        (told result count.new detail.new) out.new }
{
    let plant = whose(plant_b);
    host_plants_images::write_image(pool, plant, out, count, detail)
}
