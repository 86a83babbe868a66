// Checks another assembler's output: whether it is one of an input.
#![tactic(auto)]

mod conditions;
pub mod run;

use refusal::Refusal;

#[derive(Clone, Copy)]
pub enum Verdict {
    Yes,
    // The first condition that is broken, and the first claimed row that breaks it.
    No { condition: u8, row: u32 },
}
