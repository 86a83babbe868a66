// The commands that hold two forms against each other: two builds, and an input and what is claimed to be its output.
#![tactic(auto)]

pub mod builds;
pub mod verify;
