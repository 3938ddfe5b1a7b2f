// The preview of an edit: the change of each node's score, worked out by the rules and with nothing done.
#![tactic(auto)]

pub mod effect;
pub mod ends;
pub mod preview;
pub mod rules;
