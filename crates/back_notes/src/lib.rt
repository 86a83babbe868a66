// What the way back from a resolved form must know of its rows, and what a row alone does not say: the number of a DECL, and the
// name that an OUTER of two numbers counts to. Both are noted once for all rows, in the order of the passes: `number::number_rows`,
// then `named::name_rows`.
#![tactic(auto)]

pub mod named;
pub mod note;
pub mod number;
