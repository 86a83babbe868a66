// A form by itself: which setting its header asks for, whether the bytes are one, and its header written.
#![tactic(auto)]

pub mod asked;
pub mod header;
pub mod read;
