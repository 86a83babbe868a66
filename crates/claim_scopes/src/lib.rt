// The scopes of a claimed output as its rows are gone through: those that are open, and what was entered for each.
#![tactic(auto)]

pub mod entries;
pub mod open;
