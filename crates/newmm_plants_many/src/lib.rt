// Cutting many texts in one call by the words of one plant, with one check of the pool: for each
// text what a single call would answer and leave.
#![tactic(auto)]

ghost use Rattle.std.specs.Prelude.{◌≡◌, IfSome};
ghost use Rattle.trie_pool.specs.inner.Sound.{Readable};
ghost use Rattle.trie_plants.specs.Meaning.{plant_meaning};
ghost use Rattle.newmm_many_answers.specs.Calls.{many_call};
ghost use Rattle.newmm_many_turn.specs.inner.Knowing.{seen_in};
ghost use Rattle.newmm_plants_many.specs.Calls.{PlantManyCuts, PlantManyReasons};

use newmm_many::answer_many;
use newmm_many_answers::{Wanted, check_many};
use newmm_rules::Mode;
use refusal::Refusal;
use trie_check::capacity;
use trie_plants::{Plant, half_at};
use trie_plants_check::is_plants;
use trie_pool::NODE;

// The half in which a plant's dictionary stands, if the pool is a plants' pool. It looks at every
// node, so a caller refuses a whole call first.
fn dictionary_of(plant: Plant, pool: &[u32]) -> Option<&[u32]>
    ensures means { seen_in result ≡ plant_meaning plant pool.now }
    ensures readable { IfSome result (λ v. Readable v.now 0) }
{
    if !is_plants(pool) {
        return None;
    }
    let cells = NODE * capacity(pool.len());
    let a = half_at(plant);
    Some(&pool[a..cells])
}

// Cuts many texts by a plant's words. They stand joined in `texts`, and end there at `text_ends`.
// For each text four cells of `answers`: number, count, edges, detail, as the single call tells
// them; the ends of all texts one behind the other in `out`, each in its own text's characters. A
// text that is refused with 2 to 6 stops no other. Answers the number of texts. Refusals of the
// whole call: 10, then 6.
pub fn cut_many_in(
    texts: &[u32],
    text_ends: &[u32],
    pool: &[u32],
    plant: Plant,
    answers: &mut [u32],
    out: &mut [u32],
    scratch: &mut [u32],
    mode: Mode,
) -> Result<usize, Refusal>
    ensures { PlantManyCuts plant
        (many_call texts.now text_ends.now pool.now
        answers.old out.old scratch.old mode)
        result answers.new out.new scratch.new }
{
    check_many(text_ends, texts.len(), answers.len())?;
    answer_many(
        texts,
        text_ends,
        dictionary_of(plant, pool),
        answers,
        out,
        scratch,
        mode,
        Wanted::Ends,
    )
}

// The same with reasons: for each token of a text two cells of `pairs`, its end and its reason. 6
// of a text counts pairs.
pub fn cut_reasons_many_in(
    texts: &[u32],
    text_ends: &[u32],
    pool: &[u32],
    plant: Plant,
    answers: &mut [u32],
    pairs: &mut [u32],
    scratch: &mut [u32],
    mode: Mode,
) -> Result<usize, Refusal>
    ensures { PlantManyReasons plant
        (many_call texts.now text_ends.now pool.now
        answers.old pairs.old scratch.old mode)
        result answers.new pairs.new scratch.new }
{
    check_many(text_ends, texts.len(), answers.len())?;
    answer_many(
        texts,
        text_ends,
        dictionary_of(plant, pool),
        answers,
        pairs,
        scratch,
        mode,
        Wanted::Pairs,
    )
}
