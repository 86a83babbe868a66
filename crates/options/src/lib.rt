// The options behind a command's name, and the file of names that one of them gives.
#![tactic(auto)]

pub mod given;
pub mod names;
