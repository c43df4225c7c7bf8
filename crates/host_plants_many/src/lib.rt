// Cutting many texts in one call by the words of a plant, as hosts are told it.
#![tactic(auto)]

ghost use Rattle.newmm_many_answers.specs.Calls.{many_call};
ghost use Rattle.host_telling.specs.Told.{told};
ghost use Rattle.host_plants_many.specs.Calls.{PlantManyTold, PlantManyReasonsTold};

use host_telling::tell;
use newmm_plants_many::{cut_many_in, cut_reasons_many_in};
use newmm_rules::Mode;
use trie_plants::Plant;

// Cuts many texts in a mode by the words of a plant, with one check of the pool. They stand joined in
// texts, and end there at text_ends. Four cells of answers for each text: number, count, edges,
// detail. The ends of all texts one behind the other in out, each in its own text's characters.
// Accepted with the number of texts. Refusals of the whole call: 10, then 6.
pub fn cut_many(
    texts: &[u32],
    text_ends: &[u32],
    pool: &[u32],
    plant: Plant,
    answers: &mut [u32],
    out: &mut [u32],
    scratch: &mut [u32],
    mode: Mode,
    count: &mut usize,
    detail: &mut usize,
) -> u32
    ensures { PlantManyTold plant
        (many_call texts.now text_ends.now pool.now
        answers.old out.old scratch.old mode)
        (told result count.new detail.new)
        answers.new out.new scratch.new }
{
    let cuts = cut_many_in(texts, text_ends, pool, plant, answers, out, scratch, mode);
    tell(cuts, count, detail)
}

// Cuts many texts in a mode by the words of a plant, with reasons and one check of the pool: as the
// cut of many texts, but a text's count is that of its tokens, and for each of them two cells of
// pairs are written, its end and its reason. Where a text is cut in parts, a reason is about the
// part. Refusals of the whole call: 10, then 6. 6 of a text counts pairs.
pub fn cut_reasons_many(
    texts: &[u32],
    text_ends: &[u32],
    pool: &[u32],
    plant: Plant,
    answers: &mut [u32],
    pairs: &mut [u32],
    scratch: &mut [u32],
    mode: Mode,
    count: &mut usize,
    detail: &mut usize,
) -> u32
    ensures { PlantManyReasonsTold plant
        (many_call texts.now text_ends.now pool.now
        answers.old pairs.old scratch.old mode)
        (told result count.new detail.new)
        answers.new pairs.new scratch.new }
{
    let reasons = cut_reasons_many_in(texts, text_ends, pool, plant, answers, pairs, scratch, mode);
    tell(reasons, count, detail)
}
