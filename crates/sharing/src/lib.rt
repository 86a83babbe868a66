// References that share one inserted alias: rules and laws. It has no code.
#![tactic(auto)]
