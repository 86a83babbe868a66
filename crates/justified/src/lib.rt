// Theorems on the no of a checked claim, and no code.
#![tactic(auto)]
