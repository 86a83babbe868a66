// On the rows of an input and of its output the lists as the code makes them are those of the rules. It has no code.
#![tactic(auto)]
