// On the rows of an input and of its output the slots of a sheet are answered as the rules answer them. It has no code.
#![tactic(auto)]
