// The rules of Thai character clusters, after tcc_rules.rs: they stand in specs/, what follows from
// them in proofs/.
#![tactic(auto)]
