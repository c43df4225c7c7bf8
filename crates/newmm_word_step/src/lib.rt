// The words that start at a place of a text and end at a cluster end, one character at a time.
#![tactic(auto)]

ghost use Rattle.std.specs.Prelude.{◌≡◌, ℕ, ◌≤◌, ◌+◌, ◌-◌, min};
ghost use Rattle.newmm_rules.specs.Limits.{max_word};
ghost use Rattle.newmm_word_step.specs.inner.Walks.{Asks, Steps};

use trie_child::find_child;
use trie_pool::MAX_WORD;
use trie_search::ends_word;

// What a step finds.
// Kept: (1) three outcomes, so an Option of an enum of two is no plainer.
#[derive(Clone, Copy, Debug, PartialEq, Eq)]
pub enum Step {
    Nothing,
    Word(usize),
    Part(usize),
}

// Takes the character at e. Nothing: no word goes on here. Word: one ends behind it, at a cluster
// end. Part: none does, but one may later.
pub fn word_step(text: &[u32], pool: &[u32], flags: &[u32], e: usize, node: usize) -> Step
    requires { Asks text.now pool.now flags.now e node }
    ensures { Steps text.now pool.now e node result }
{
    let Some(r) = find_child(pool, node, text[e]) else {
        return Step::Nothing;
    };
    if !ends_word(pool, r) {
        return Step::Part(r);
    }
    if flags[e + 1] == 0 {
        return Step::Part(r);
    }
    Step::Word(r)
}

// How far a word from b can reach: as many characters as a word may have, within a text of n.
pub fn word_limit(n: usize, b: usize) -> usize
    requires { b ≤ n }
    ensures { result ≡ b + min max_word (n - b) }
{
    b + MAX_WORD.min(n - b)
}
