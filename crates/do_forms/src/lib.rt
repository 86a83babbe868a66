// The commands that write a form in another shape: with other names, mended, of another version, with its names back, as text.
#![tactic(auto)]

pub mod anonymous;
pub mod from_text;
pub mod given_back;
pub mod mended;
pub mod version;
