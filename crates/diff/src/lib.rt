// Two resolved forms compared: the list of what differs.
#![tactic(auto)]

mod list;
pub mod run;
