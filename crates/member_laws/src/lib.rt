// What a prelude's root and a member inside it come to in the tables is what the rules say of them. It has no code.
#![tactic(auto)]
