// No code: the walk over the marked rows of a form writes what the rules' steps make of the marked tree.
#![tactic(auto)]
