// Doubles within whole bounds: definitions and laws alone, no code.
#![tactic(auto)]
