// The demands on the whole as theorems: their statements stand in specs/, their proofs in proofs/.
#![tactic(auto)]
