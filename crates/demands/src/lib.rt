// What documents 01 and 02 demand of the answers, in their own words, and that the definitions of the questions meet it; no code.
#![tactic(auto)]
