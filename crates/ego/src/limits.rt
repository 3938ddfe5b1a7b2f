// The limits of a score, and the words. specs/Limits.antt has the limits, once each, and specs/Inside/Words.antt the words.

// The most edges that a node may have.
pub const LIMIT: usize = 40;

// The grains that make 1: the least common multiple of 1 .. 39.
pub const UNIT: u64 = 5342931457063200;

// A neighbour's edges within a neighbourhood, a bit for each neighbour.
pub type Word = u64;

// The words of a neighbourhood.
pub const WORDS: usize = LIMIT;
