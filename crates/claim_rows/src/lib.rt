// Condition 2 of checking a claimed output: its rows, but for those of added fields, are the input's.
#![tactic(auto)]

pub mod added;
pub mod same;
