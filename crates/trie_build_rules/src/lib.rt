// Words put into a pool in rising order: the laws of a trie that grows by levels.
#![tactic(auto)]
