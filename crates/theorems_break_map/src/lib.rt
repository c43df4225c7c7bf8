// Theorems on maps of breaks: a map and the ends that it was made from say the same. See specs/.
#![tactic(auto)]
