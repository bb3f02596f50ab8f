// Books with holes: definitions and laws alone, no code.
#![tactic(auto)]
