// What a file is that the resolver refuses, and the words for it.
#![tactic(auto)]

pub mod file;
mod text;
pub mod version;
