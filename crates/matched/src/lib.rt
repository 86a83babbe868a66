// What two resolved forms have alike: a row as it counts, and the root's fields from the front and from the back.
#![tactic(auto)]

pub mod fields;
pub mod row;
