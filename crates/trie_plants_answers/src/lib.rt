// What plant calls on a dictionary answer: the definitions that their contracts and the demands
// cite stand in specs/, what follows from them in proofs/.
#![tactic(auto)]
