// The listing's lines, written as bytes into a buffer.
#![tactic(auto)]

pub mod text; // numbers, fields and lines
pub mod tuples; // the lines of live tuples
pub mod answer; // the answer's line, and a whole reply
pub mod combinations; // the lines of combinations
