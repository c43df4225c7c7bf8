// The words of a dictionary in rising order, each with its class: the list that its image says.
#![tactic(auto)]
