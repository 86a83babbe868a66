// The binding sheet, which says what each reference must mean: rules and laws. It has no code.
#![tactic(auto)]
