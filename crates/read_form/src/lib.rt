// A form by itself, with no step taken on it. It has no code.
#![tactic(auto)]
