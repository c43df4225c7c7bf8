// What reading a word list image answers: the definitions of specs/.
#![tactic(auto)]
