// Two resolved forms compared: rules and laws. It has no code.
#![tactic(auto)]
