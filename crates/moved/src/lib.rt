// The written numbers that inserted aliases have moved.
#![tactic(auto)]

pub mod run;
