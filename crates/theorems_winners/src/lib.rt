// Theorems on who wins a cluster: the alternatives that never do, those that do, and those whose
// matches are ever made shorter. See specs/.
#![tactic(auto)]
