// Laws on lists that the other crates' proofs cite: see proofs/.
#![tactic(auto)]
