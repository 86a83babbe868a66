// Mending a spoilt form: rules and laws. It has no code.
#![tactic(auto)]
