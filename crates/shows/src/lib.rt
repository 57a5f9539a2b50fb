// Laws of shows: rows, files, numbering, copies of blocks; no code.
#![tactic(auto)]
