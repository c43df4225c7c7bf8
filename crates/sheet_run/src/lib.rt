// The line program as a function, from all bytes that are read to all bytes that are written
// (specs/), and that calls with the rows of a run give it (proofs/).
#![tactic(auto)]
