// The calls that add and remove an edge.
#![tactic(auto)]

pub mod edit;
pub mod examined;
pub mod renewal;
pub mod touched;
