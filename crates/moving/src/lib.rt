// The written numbers that inserted aliases have moved: rules and laws. It has no code.
#![tactic(auto)]
