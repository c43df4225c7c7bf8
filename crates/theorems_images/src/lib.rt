// Theorems on word list images: one image for the same words and classes, and that reading and
// writing are each other's way back. See specs/.
#![tactic(auto)]
