// One leaf more or less in a dictionary's pool: every other node keeps its word, its class and its
// children, under a new number.
#![tactic(auto)]

mod moves;
mod one_less;
mod one_more;

pub use one_less::pluck;
pub use one_more::plant;
