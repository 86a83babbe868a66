// Resolves a form of any version that is in force, in working areas that are lent.
#![tactic(auto)]

pub mod run;
pub mod sizes;
