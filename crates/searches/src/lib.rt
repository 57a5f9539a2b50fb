// Laws of searches over a folded show, whatever links weigh and however wide numbers are; no code.
#![tactic(auto)]
