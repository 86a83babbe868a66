// A form of one version of the row form as one of another. It has no code.
#![tactic(auto)]
