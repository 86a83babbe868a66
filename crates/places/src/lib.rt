// Rows of places: which row of a tree the declaration or the operand at a place is. It has no code.
#![tactic(auto)]
