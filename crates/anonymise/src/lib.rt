// A form with other names: they become 1, 2, 3, and so on, in the order in which they first stand.
#![tactic(auto)]

mod numbers;
pub mod run;
