// On the rows of a prelude and a member the declaration that a name means is the one that the rules give. It has no code.
#![tactic(auto)]
