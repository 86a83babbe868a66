// A batch in bytes: its prelude, and each member inside the prelude's root, in its share of the output. In tables that are lent, of the
// setting at any place, and in version 1 in tables of its own.
#![tactic(auto)]

pub mod run;
mod shares;
