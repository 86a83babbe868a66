// What is left of a working area that is handed back. It has no code.
#![tactic(auto)]
