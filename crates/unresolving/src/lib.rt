// From a resolved form back to names: rules and laws. It has no code.
#![tactic(auto)]
