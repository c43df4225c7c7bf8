// What calls on a dictionary answer: the definitions that their contracts and the demands cite
// stand in specs/, what follows from them in proofs/.
#![tactic(auto)]

ghost use Rattle.std.specs.Prelude.{◌≡◌, length};
ghost use Rattle.refusal.specs.Answers.{answer};
ghost use Rattle.trie_pool.specs.Meaning.{meaning};
ghost use Rattle.trie_char_answers.specs.Refusals.{remove_causes};

use char_string_trim::trim;
use refusal::Refusal;
use trie_check::check;
use trie_pool::MAX_WORD;

// Refusals 2, 3, 4 and 7, which add and remove share; accepted with the word's length.
pub fn check_word(pool: &[u32], word: &[u32]) -> Result<usize, Refusal>
    ensures { result ≡
        answer (remove_causes word.now (meaning pool.now)) (length word.now) }
{
    let n = check(pool, word)?;
    let span = trim(word);
    let kept = span.end - span.start;
    if MAX_WORD < kept {
        return Err(Refusal::WordTooLong(kept));
    }
    Ok(n)
}
