// Theorems on two plants in one pool: neither learns of the other or disturbs it, what a plant is
// charged, and demand 3 for plant calls. See specs/.
#![tactic(auto)]
