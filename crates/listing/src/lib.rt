// The list over entries that are lent as records.
#![tactic(auto)]

pub mod records;
