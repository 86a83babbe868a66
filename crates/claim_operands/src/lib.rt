// Condition 4 of checking a claimed output: every operand of an input field is a number, and the right one.
#![tactic(auto)]

mod outer;
mod paths;
mod reference;
pub mod run;

// Where the rows are gone through: how many slots are used and how many scopes open, whether the row's field is added, and
// the input's next row.
#[derive(Clone, Copy)]
struct Cursor {
    used: usize,
    depth: usize,
    added: bool,
    next: usize,
}
