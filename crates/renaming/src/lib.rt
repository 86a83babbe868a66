// A form whose names have gone through a mapping, and what the rules answer for it. It has no code.
#![tactic(auto)]
