// The dictionary's pool: the meaning of its cells stands in specs/, the laws of level order in
// proofs/.
#![tactic(auto)]

// The cells of a node: those of node i stand from NODE * i on. They are two halves, and a
// dictionary stands in one half of the nodes: a plain one in the first. Its scalar is the first
// cell of a half.
pub const NODE: usize = 8;

// Where the second half of a node's cells starts.
pub const HALF: usize = 4;

// Where the node's children stand, or would stand.
pub const FIRST: usize = 1;

// How many children it has.
pub const COUNT: usize = 2;

// Its mark: 0 if no word ends at it, else the word's class and one. The root has none.
pub const MARK: usize = 3;

// The largest mark.
pub const MAX_MARK: u32 = 65536;

// The nodes in use, a cell of the root.
pub const IN_USE: usize = 0;

// The most nodes that a pool may have.
pub const MAX_NODES: usize = 1048576;

// The most characters of a word, and so the most levels below the root.
pub const MAX_WORD: usize = 255;
