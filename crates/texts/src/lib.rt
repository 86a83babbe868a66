// Texts of rows as wnt has them: printed from a form, read from a file, and what is wrong with one in words.
#![tactic(auto)]

pub mod load;
pub mod make;
pub mod print;
pub mod whole;
mod wrong;
