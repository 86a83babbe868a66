// On the rows of a tree the readings on rows are those of the rules. It has no code.
#![tactic(auto)]
