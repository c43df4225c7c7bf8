// What a call with many texts answers: the definitions that the contracts and the theorems cite
// stand in specs/. The test of the whole call, and the four cells of an answer.
#![tactic(auto)]

ghost use Rattle.std.specs.Prelude.{◌≡◌, ◌∷◌, ◌++◌, ◌*◌, ◌≤◌, ◌<◌, length, drop, IfSome};
ghost use Rattle.std.specs.Option.{unwrap_or};
ghost use Rattle.refusal.specs.Answers.{answer};
ghost use Rattle.newmm_many_answers.specs.Texts.{first_wrong};
ghost use Rattle.newmm_many_answers.specs.Turns.{cells_of, ends_told};
ghost use Rattle.newmm_many_answers.specs.Calls.{many_causes};
ghost use Rattle.newmm_many_answers.specs.inner.Small.{Small};
ghost use Rattle.newmm_many_answers.specs.inner.Singles.{width_of};

use newmm_rules::Ends;
use refusal::Refusal;

// The cells of a text's answer.
pub const ANSWER: usize = 4;

// What a call with many texts writes for a token: its end, or a pair of its end and its reason.
#[derive(Clone, Copy, Debug, PartialEq, Eq)]
pub enum Wanted {
    Ends,
    Pairs,
}

// Kept: (2) break_map's ends have to rise, which is another definition, so one test with a switch
// is no plainer.
// The index of the first text end that is below the one before it or over `size`.
pub fn first_wrong(ends: &[u32], size: usize) -> Option<usize>
    ensures index { unwrap_or result (length ends.now) ≡ first_wrong size ends.now }
    ensures within { IfSome result (λ i. i < length ends.now) }
{
    let mut from = 0;
    for (i, cell) in ends.iter().enumerate() {
        let end = *cell as usize;
        if end < from || size < end {
            return Some(i);
        }
        from = end;
    }
    None
}

// Refusals 10 and 6 of the whole call, by the cells of the row of texts and of the row of answers;
// accepted with the number of texts.
pub fn check_many(ends: &[u32], size: usize, room: usize) -> Result<usize, Refusal>
    ensures { result ≡ answer (many_causes size ends.now room) (length ends.now) }
{
    if let Some(wrong) = first_wrong(ends, size) {
        return Err(Refusal::WrongPosition(wrong));
    }
    let n = ends.len();
    let needed = ANSWER * n;
    if room < needed {
        return Err(Refusal::OutputTooShort(needed));
    }
    Ok(n)
}

// The four cells of an answer.
fn answer_cells(told: Result<Ends, Refusal>) -> [u32; 4]
    requires { Small told }
    ensures { result ≡ cells_of told }
{
    match told {
        Ok(cut) => [0, cut.ends as u32, cut.edges as u32, 0],
        Err(r) => [r.number() as u32, 0, 0, r.detail() as u32],
    }
}

// The four cells of an answer, at the front of the row.
pub fn put_answer(row: &mut [u32], told: Result<Ends, Refusal>)
    requires { (4 ≤ length row.old) × Small told }
    ensures { row.new ≡ cells_of told ++ drop 4 row.old }
{
    row[..ANSWER].copy_from_slice(&answer_cells(told));
}

// The number of ends that an answer tells; a refused text has none.
pub fn ends_told(told: Result<Ends, Refusal>) -> usize
    ensures { result ≡ ends_told told }
{
    match told {
        Ok(cut) => cut.ends,
        Err(_) => 0,
    }
}

// The number of cells that are written for an answer.
pub fn cells_told(told: Result<Ends, Refusal>, wanted: Wanted) -> usize
    requires { Small told }
    ensures { result ≡ width_of wanted * ends_told told }
{
    let n = ends_told(told);
    match wanted {
        Wanted::Ends => n,
        Wanted::Pairs => 2 * n,
    }
}
