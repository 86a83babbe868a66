// A form converted from one version of the row form to another.
#![tactic(auto)]

pub mod run;
