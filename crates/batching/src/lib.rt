// Several members inside one prelude: the definitions and what is proved of them. It has no code.
#![tactic(auto)]
