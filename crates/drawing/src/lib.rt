// A form drawn: a picture as SVG, on standard output. It takes any bytes.
#![tactic(auto)]

mod arcs;
mod boxes;
mod lines;
mod numbers;
mod svg;
pub mod whole;
