// Word list images: the definitions, what an image says, and what words an image holds.
#![tactic(auto)]
