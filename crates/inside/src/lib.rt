// A form whose root lies inside the root of a resolved form: its run, in tables that are lent, and in version 1 in tables of its own.
#![tactic(auto)]

pub mod admit;
pub mod run;
