// How long what is told for a line can be: the laws of proofs/.
#![tactic(auto)]
