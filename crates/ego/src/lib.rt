// The ego-betweenness of a node, exactly: its neighbours, their edges as words, and the sum over the pairs.
#![tactic(auto)]

pub mod bound;
pub mod limits;
pub mod neighbours;
pub mod score;
pub mod share;
pub mod words;
