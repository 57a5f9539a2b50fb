// Laws of chains and of distances in a folded show; no code.
#![tactic(auto)]
