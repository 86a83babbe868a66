// Where the rows, the scopes and the arcs of a picture of a form stand, in whole numbers. It takes any bytes.
#![tactic(auto)]

pub mod arcs;
pub mod lanes;
pub mod places;
