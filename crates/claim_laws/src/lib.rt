// On the rows of an input and of a claim, the definitions that the code of the conditions is proved equal to do what the rules say. It has no code.
#![tactic(auto)]
