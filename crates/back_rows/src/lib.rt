// The rows of an input, out of those of its resolved form and what was noted of them: inserted fields are left out, and the
// references that they served become names and paths again.
//
// The rows are gone through from the last to the first, and are written so too. Inserted fields stand straight before the field
// whose references they serve, and each group of them belongs to the last reference that it fits; so both are met in order.
#![tactic(auto)]

pub mod alias;
pub mod restore;
pub mod write;
