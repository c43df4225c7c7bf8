// Maps of breaks: written from the ends of a text, and asked for a position.
//   break_map       a bit for each position 0 to n, set exactly at the ends
//   breaks_up_to    the number of breaks up to and including a position
//   next_break      the first break above a position
#![tactic(auto)]

mod reading;
mod sizes;
mod writing;

pub use reading::{breaks_up_to, next_break};
pub use writing::break_map;
