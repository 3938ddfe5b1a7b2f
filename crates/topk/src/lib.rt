// The first k nodes by score, worked out lazily.
#![tactic(auto)]

pub mod entries;
pub mod list;
pub mod next;
pub mod turns;
pub mod worth;
