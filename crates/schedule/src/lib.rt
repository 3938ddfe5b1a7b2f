// Schedules: the hours in which each edge of a graph exists. The graph at a minute is written as a snapshot and loaded, and the next change is found.
#![tactic(auto)]

pub mod change;
pub mod records;
pub mod sheet;
