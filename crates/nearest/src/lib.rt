// The nearest listed node: a breadth-first search with a limit of hops.
#![tactic(auto)]

pub mod listed;
pub mod search;
pub mod spread;
pub mod strips;
pub mod table;
