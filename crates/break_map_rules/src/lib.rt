// Maps of breaks: what they are, and what calls on them answer. The definitions that the contracts
// and the theorems cite stand in specs/.
#![tactic(auto)]
