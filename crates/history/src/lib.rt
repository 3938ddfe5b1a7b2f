// The plain model of a history, and demand 3.
#![tactic(auto)]
