// The script format: read by slice and bit number, and by a reader over a lent script.
#![tactic(auto)]

pub mod reader;
pub mod step;
