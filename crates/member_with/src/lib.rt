// One member of a batch by itself, inside the root of its resolved prelude, of any setting in force, in working areas that are lent.
#![tactic(auto)]

pub mod run;
pub mod sizes;
