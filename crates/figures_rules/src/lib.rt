// Release figures: what they are, how two batches of them are joined, and what a run of texts
// gives. The definitions that the contracts and the theorems cite stand in specs/.
#![tactic(auto)]

// Kept: (1) a host is lent the figures as sixteen cells, so each is a place in them and no field.
// How many figures there are, and where each of them stands. Tokens by reason 1 to 5 stand in the
// cells behind the tokens, texts refused with 1 to 6 in the last six.
pub const FIGURES: usize = 16;

pub const TEXTS: usize = 0;

pub const CHARACTERS: usize = 1;

pub const TOKENS: usize = 2;

pub const EDGES: usize = 8;

pub const MOST_EDGES: usize = 9;
