// The rules of cutting, after newmm.rs: they stand in specs/ in 01's order, what follows from them
// in proofs/.
#![tactic(auto)]

// A place stops recording behind the edge that makes them more.
pub const MAX_GRAPH_SIZE: usize = 50;

// A text of fewer characters is one part. A longer one has a sample between these two positions.
pub const TEXT_SCAN_BEGIN: usize = 100;

pub const TEXT_SCAN_END: usize = 140;

// How a text is cut: as a whole, in parts as the Rust has them, or by the profile "sheet", in parts
// that end right behind a space.
#[derive(Clone, Copy)]
pub enum Mode {
    Plain,
    Safe,
    Sheet,
}

// What a cut made: the number of ends, and the number of edges recorded in the whole call.
#[derive(Clone, Copy)]
pub struct Ends {
    pub ends: usize,
    pub edges: usize,
}
