// Cutting many texts in one call by the words of a plant: a call for each mode, and for each with
// reasons. `plant_b` is false for plant A and true for plant B.
ghost use Rattle.newmm_rules.specs.declared.Mode.TheVariants.{Plain, Safe, Sheet};
ghost use Rattle.newmm_many_answers.specs.Calls.{many_call};
ghost use Rattle.host_telling.specs.Told.{told};
ghost use Rattle.host_plants.specs.Calls.{plant_of};
ghost use Rattle.host_plants_many.specs.Calls.{PlantManyTold, PlantManyReasonsTold};

use host_plants::whose;
use newmm_rules::Mode::{Plain, Safe, Sheet};

// Cuts many texts plainly by the words of a plant, with one check of the pool. They stand joined in
// texts, and end there at text_ends. Four cells of answers for each text: number, count, edges,
// detail. The ends of all texts one behind the other in out, each in its own text's characters.
// Accepted with the number of texts. Refusals of the whole call: 10, then 6.
pub fn fetlockice_plant_cut_many_plain(
    texts: &[u32],
    text_ends: &[u32],
    pool: &[u32],
    plant_b: bool,
    answers: &mut [u32],
    out: &mut [u32],
    scratch: &mut [u32],
    count: &mut usize,
    detail: &mut usize,
) -> u32
    ensures { PlantManyTold (plant_of plant_b)
        (many_call texts.now text_ends.now pool.now
        answers.old out.old scratch.old Plain)
        (told result count.new detail.new)
        answers.new out.new scratch.new }
{
    let plant = whose(plant_b);
    host_plants_many::cut_many(
        texts, text_ends, pool, plant, answers, out, scratch, Plain, count, detail,
    )
}

// The same in safe mode.
pub fn fetlockice_plant_cut_many_safe(
    texts: &[u32],
    text_ends: &[u32],
    pool: &[u32],
    plant_b: bool,
    answers: &mut [u32],
    out: &mut [u32],
    scratch: &mut [u32],
    count: &mut usize,
    detail: &mut usize,
) -> u32
    ensures { PlantManyTold (plant_of plant_b)
        (many_call texts.now text_ends.now pool.now
        answers.old out.old scratch.old Safe)
        (told result count.new detail.new)
        answers.new out.new scratch.new }
{
    let plant = whose(plant_b);
    host_plants_many::cut_many(
        texts, text_ends, pool, plant, answers, out, scratch, Safe, count, detail,
    )
}

// The same by the profile "sheet".
pub fn fetlockice_plant_cut_many_sheet(
    texts: &[u32],
    text_ends: &[u32],
    pool: &[u32],
    plant_b: bool,
    answers: &mut [u32],
    out: &mut [u32],
    scratch: &mut [u32],
    count: &mut usize,
    detail: &mut usize,
) -> u32
    ensures { PlantManyTold (plant_of plant_b)
        (many_call texts.now text_ends.now pool.now
        answers.old out.old scratch.old Sheet)
        (told result count.new detail.new)
        answers.new out.new scratch.new }
{
    let plant = whose(plant_b);
    host_plants_many::cut_many(
        texts, text_ends, pool, plant, answers, out, scratch, Sheet, count, detail,
    )
}

// Cuts many texts plainly by the words of a plant, with reasons and one check of the pool: as the
// cut of many texts, but a text's count is that of its tokens, and for each of them two cells of
// pairs are written, its end and its reason. Refusals of the whole call: 10, then 6. 6 of a text
// counts pairs.
pub fn fetlockice_plant_reasons_many_plain(
    texts: &[u32],
    text_ends: &[u32],
    pool: &[u32],
    plant_b: bool,
    answers: &mut [u32],
    pairs: &mut [u32],
    scratch: &mut [u32],
    count: &mut usize,
    detail: &mut usize,
) -> u32
    ensures { PlantManyReasonsTold (plant_of plant_b)
        (many_call texts.now text_ends.now pool.now
        answers.old pairs.old scratch.old Plain)
        (told result count.new detail.new)
        answers.new pairs.new scratch.new }
{
    let plant = whose(plant_b);
    host_plants_many::cut_reasons_many(
        texts, text_ends, pool, plant, answers, pairs, scratch, Plain, count, detail,
    )
}

// The same in safe mode. A reason is about the part.
pub fn fetlockice_plant_reasons_many_safe(
    texts: &[u32],
    text_ends: &[u32],
    pool: &[u32],
    plant_b: bool,
    answers: &mut [u32],
    pairs: &mut [u32],
    scratch: &mut [u32],
    count: &mut usize,
    detail: &mut usize,
) -> u32
    ensures { PlantManyReasonsTold (plant_of plant_b)
        (many_call texts.now text_ends.now pool.now
        answers.old pairs.old scratch.old Safe)
        (told result count.new detail.new)
        answers.new pairs.new scratch.new }
{
    let plant = whose(plant_b);
    host_plants_many::cut_reasons_many(
        texts, text_ends, pool, plant, answers, pairs, scratch, Safe, count, detail,
    )
}

// The same by the profile "sheet".
pub fn fetlockice_plant_reasons_many_sheet(
    texts: &[u32],
    text_ends: &[u32],
    pool: &[u32],
    plant_b: bool,
    answers: &mut [u32],
    pairs: &mut [u32],
    scratch: &mut [u32],
    count: &mut usize,
    detail: &mut usize,
) -> u32
    ensures { PlantManyReasonsTold (plant_of plant_b)
        (many_call texts.now text_ends.now pool.now
        answers.old pairs.old scratch.old Sheet)
        (told result count.new detail.new)
        answers.new pairs.new scratch.new }
{
    let plant = whose(plant_b);
    host_plants_many::cut_reasons_many(
        texts, text_ends, pool, plant, answers, pairs, scratch, Sheet, count, detail,
    )
}
