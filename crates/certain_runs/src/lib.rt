// What is certain of every grouping: definitions and laws alone, no code.
#![tactic(auto)]
