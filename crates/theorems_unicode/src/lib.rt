// The decoder against the Unicode Standard: the theorems of proofs/.
#![tactic(auto)]
