// Theorems over the proved contracts of the public functions: no second answer fits any of them,
// and demand 3 speaks of them.
#![tactic(auto)]
