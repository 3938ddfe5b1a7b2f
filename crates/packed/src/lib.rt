// Bits in lent bytes, and the edges of a graph as bits.
#![tactic(auto)]

pub mod bits;
pub mod degrees;
pub mod edges;
pub mod rows;
pub mod runs;
pub mod windows;
