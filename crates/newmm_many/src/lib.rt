// Cutting many texts in one call, with one check of the pool: for each text what a single call
// would answer and leave.
#![tactic(auto)]

ghost use Rattle.std.specs.Prelude.{◌≡◌, [], length, IfSome};
ghost use Rattle.trie_pool.specs.Meaning.{meaning};
ghost use Rattle.trie_pool.specs.inner.Sound.{Readable};
ghost use Rattle.newmm_many_answers.specs.Singles.{singly};
ghost use Rattle.newmm_many_answers.specs.Calls.{many_call, ManyBy, ManyCuts, ManyReasons};
ghost use Rattle.newmm_many_answers.specs.inner.Whole.{Whole};
ghost use Rattle.newmm_many_turn.specs.inner.Knowing.{seen_in};
ghost use Rattle.newmm_many.specs.inner.Rows.{Left};

use newmm_many_answers::{ANSWER, Wanted, cells_told, check_many, put_answer};
use newmm_many_turn::answer_next;
use newmm_rules::Mode;
use refusal::Refusal;
use trie_check::{capacity, is_dictionary};
use trie_pool::NODE;

// Answers the texts one after the other, by a view of a pool, if it can be read, where neither 10
// nor 6 refuses the whole call. Scratch is cleared for the first text that is cut: each cut leaves
// it all 0.
fn answer_texts(
    texts: &[u32],
    text_ends: &[u32],
    view: Option<&[u32]>,
    answers: &mut [u32],
    out: &mut [u32],
    scratch: &mut [u32],
    mode: Mode,
    wanted: Wanted,
)
    requires whole { Whole (length texts.now) text_ends.now (length answers.old) }
    requires view { IfSome view (λ v. Readable v.now 0) }
    ensures { Left (singly wanted mode (seen_in view.entry))
        (many_call texts.now text_ends.now []
        answers.old out.old scratch.old mode)
        answers.new out.new scratch.new }
{
    let mut blank = false;
    let mut from = 0;
    let mut used = 0;
    for (i, cell) in text_ends.iter().enumerate() {
        let end = *cell as usize;
        let told = answer_next(
            &texts[from..end],
            view,
            &mut out[used..],
            scratch,
            &mut blank,
            mode,
            wanted,
        );
        put_answer(&mut answers[ANSWER * i..], told);
        used += cells_told(told, wanted);
        from = end;
    }
}

// What is wanted of many texts, by a view of a pool, if it can be read. Answers the number of
// texts. Refusals of the whole call: 10, then 6.
pub fn answer_many(
    texts: &[u32],
    text_ends: &[u32],
    view: Option<&[u32]>,
    answers: &mut [u32],
    out: &mut [u32],
    scratch: &mut [u32],
    mode: Mode,
    wanted: Wanted,
) -> Result<usize, Refusal>
    requires { IfSome view (λ v. Readable v.now 0) }
    ensures { ManyBy (singly wanted mode (seen_in view.entry))
        (many_call texts.now text_ends.now []
        answers.old out.old scratch.old mode)
        result answers.new out.new scratch.new }
{
    let n = check_many(text_ends, texts.len(), answers.len())?;
    answer_texts(texts, text_ends, view, answers, out, scratch, mode, wanted);
    Ok(n)
}

// The cells in which a pool's dictionary stands, if it is one. It looks at every node, so a caller
// refuses a whole call first.
fn dictionary_in(pool: &[u32]) -> Option<&[u32]>
    ensures means { seen_in result ≡ meaning pool.now }
    ensures readable { IfSome result (λ v. Readable v.now 0) }
{
    if !is_dictionary(pool) {
        return None;
    }
    let cells = NODE * capacity(pool.len());
    Some(&pool[..cells])
}

// Cuts many texts by the words of a pool. They stand joined in `texts`, and end there at
// `text_ends`. For each text four cells of `answers`: number, count, edges, detail, as the single
// call tells them; the ends of all texts one behind the other in `out`, each in its own text's
// characters. A text that is refused with 2 to 6 stops no other. Answers the number of texts.
// Refusals of the whole call: 10, then 6.
pub fn cut_many(
    texts: &[u32],
    text_ends: &[u32],
    pool: &[u32],
    answers: &mut [u32],
    out: &mut [u32],
    scratch: &mut [u32],
    mode: Mode,
) -> Result<usize, Refusal>
    ensures { ManyCuts (many_call texts.now text_ends.now pool.now
        answers.old out.old scratch.old mode)
        result answers.new out.new scratch.new }
{
    check_many(text_ends, texts.len(), answers.len())?;
    answer_many(
        texts,
        text_ends,
        dictionary_in(pool),
        answers,
        out,
        scratch,
        mode,
        Wanted::Ends,
    )
}

// The same with reasons: for each token of a text two cells of `pairs`, its end and its reason. 6
// of a text counts pairs.
pub fn cut_reasons_many(
    texts: &[u32],
    text_ends: &[u32],
    pool: &[u32],
    answers: &mut [u32],
    pairs: &mut [u32],
    scratch: &mut [u32],
    mode: Mode,
) -> Result<usize, Refusal>
    ensures { ManyReasons (many_call texts.now text_ends.now pool.now
        answers.old pairs.old scratch.old mode)
        result answers.new pairs.new scratch.new }
{
    check_many(text_ends, texts.len(), answers.len())?;
    answer_many(
        texts,
        text_ends,
        dictionary_in(pool),
        answers,
        pairs,
        scratch,
        mode,
        Wanted::Pairs,
    )
}
