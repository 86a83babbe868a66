// What the numbers of a claimed output reach through added aliases, and what a name means in the scopes around: by what was
// entered for its scopes.
#![tactic(auto)]

pub mod alias;
pub mod outward;
