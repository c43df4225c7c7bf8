// What the public cut answers: the definitions that its contract and the demands cite stand in
// specs/.
#![tactic(auto)]

ghost use Rattle.std.specs.Prelude.{◌≡◌, ◌≤◌, length};
ghost use Rattle.refusal.specs.Answers.{answer};
ghost use Rattle.trie_pool.specs.Meaning.{meaning};
ghost use Rattle.newmm_answers.specs.Answers.{scratch_for, first_causes};

use refusal::Refusal;
use trie_check::check;

// The scratch cells that a cut of n characters asks for.
pub fn scratch_for(n: usize) -> usize
    requires { n ≤ 65536 }
    ensures { result ≡ scratch_for n }
{
    9 * n + 128
}

// Refusals 2, 3, 4 and 5, by the number of scratch cells; accepted with the text's length.
pub fn check_cut(text: &[u32], pool: &[u32], cells: usize) -> Result<usize, Refusal>
    ensures { result ≡ answer (first_causes text.now (meaning pool.now) cells)
        (length text.now) }
{
    let n = check(pool, text)?;
    let needed = scratch_for(n);
    if cells < needed {
        return Err(Refusal::ScratchTooShort(needed));
    }
    Ok(n)
}
