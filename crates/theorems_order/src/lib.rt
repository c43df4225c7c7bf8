// Theorems on the order of edits: what adds and removals of words leave, whichever comes first.
// See specs/.
#![tactic(auto)]
