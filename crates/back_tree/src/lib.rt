// No code: what `back_rows` writes for the rows of an accepted run's output are those of the rules' unresolved tree.
#![tactic(auto)]
