// Cutting many texts in one call, as hosts are told it.
#![tactic(auto)]

ghost use Rattle.newmm_many_answers.specs.Calls.{many_call};
ghost use Rattle.host_telling.specs.Told.{told};
ghost use Rattle.host_many.specs.Calls.{ManyTold, ManyReasonsTold};

use host_telling::tell;
use newmm_rules::Mode;

// Cuts many texts in a mode, with one check of the pool. They stand joined in texts, and end there
// at text_ends. Four cells of answers for each text: number, count, edges, detail. The ends of all
// texts one behind the other in out, each in its own text's characters. Accepted with the number of
// texts. Refusals of the whole call: 10, then 6.
pub fn cut_many(
    texts: &[u32],
    text_ends: &[u32],
    pool: &[u32],
    answers: &mut [u32],
    out: &mut [u32],
    scratch: &mut [u32],
    mode: Mode,
    count: &mut usize,
    detail: &mut usize,
) -> u32
    ensures { ManyTold (many_call texts.now text_ends.now pool.now
        answers.old out.old scratch.old mode)
        (told result count.new detail.new)
        answers.new out.new scratch.new }
{
    let cuts = newmm_many::cut_many(texts, text_ends, pool, answers, out, scratch, mode);
    tell(cuts, count, detail)
}

// Cuts many texts in a mode, with reasons and one check of the pool. They stand joined in texts, and
// end there at text_ends. Four cells of answers for each text: number, count, edges, detail. The
// count is that of the text's tokens; for each of them two cells of pairs, its end in its own
// text's characters and its reason, those of all texts one behind the other. Where a text is cut in
// parts, a reason is about the part. Accepted with the number of texts. Refusals of the whole call:
// 10, then 6. 6 of a text counts pairs.
pub fn cut_reasons_many(
    texts: &[u32],
    text_ends: &[u32],
    pool: &[u32],
    answers: &mut [u32],
    pairs: &mut [u32],
    scratch: &mut [u32],
    mode: Mode,
    count: &mut usize,
    detail: &mut usize,
) -> u32
    ensures { ManyReasonsTold (many_call texts.now text_ends.now pool.now
        answers.old pairs.old scratch.old mode)
        (told result count.new detail.new)
        answers.new pairs.new scratch.new }
{
    let reasons = newmm_many::cut_reasons_many(
        texts, text_ends, pool, answers, pairs, scratch, mode,
    );
    tell(reasons, count, detail)
}
