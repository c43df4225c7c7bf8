// What the cut with reasons answers: the definitions that its contracts and the theorems cite stand
// in specs/.
#![tactic(auto)]

// What is told of a token is one cell of scratch: its end so many times, and its reason.
// Kept: (1) fixed memory: the 9n + 128 cells of scratch have no second cell for each token.
pub const REASONS: u32 = 8;
