// The declarations of a claimed output with their numbers, entered once for all scopes: those of the input's fields under
// their names, those of added aliases under their numbers.
#![tactic(auto)]

pub mod count;
pub mod enter;
