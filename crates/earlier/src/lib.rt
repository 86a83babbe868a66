// Theorems on rules under which a name means only what an earlier field declares, and no code.
#![tactic(auto)]
