// The search for words in a dictionary's pool.
#![tactic(auto)]

mod search;

pub use search::{
    count_words, ends_word, mark_of, missing, nodes_in_use, prefix_count, prefix_lengths,
};
