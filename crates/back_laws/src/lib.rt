// No code: what `back_notes` and `back_rows` make of the rows of a resolved form are those of the rules' unresolved tree.
#![tactic(auto)]
