// Another assembler's output checked: rules and laws. It has no code.
#![tactic(auto)]
