// Mends a spoilt form in its own buffer, and lists the changes.
#![tactic(auto)]

mod place;
pub mod run;
