// Gives an input form back for a resolved form of version 1.
#![tactic(auto)]

pub mod restore;
pub mod run;
