// Surveys: of the measurements of a pair the latest counts. The graph at a threshold is written as a snapshot, and the record that counted is found.
#![tactic(auto)]

pub mod position;
pub mod records;
pub mod sheet;
