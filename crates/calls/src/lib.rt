// The calls on a state that edit no edge: clear, load, write and score.
#![tactic(auto)]

pub mod clear;
pub mod made;
pub mod score;
pub mod snapshot;
