// Changing the words of a dictionary's pool: one more, one less, and none at all.
#![tactic(auto)]

mod add;
mod empty;
mod remove;

pub use add::add_word;
pub use empty::reset;
pub use remove::remove_word;
