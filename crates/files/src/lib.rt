// Files as a program of the command line has them: read whole, written whole or not at all, and the system's reasons in words.
#![tactic(auto)]

pub mod errors;
pub mod host;
mod links;
mod mode;
pub mod path_parts;
pub mod read;
pub mod standard;
mod temporary;
pub mod write;
