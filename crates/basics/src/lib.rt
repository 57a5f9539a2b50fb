// Laws of lists, choices and values in a text; no code.
#![tactic(auto)]
