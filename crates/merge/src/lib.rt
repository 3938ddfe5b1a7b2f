// Reconcile two editors' graphs.
#![tactic(auto)]

pub mod brought;
pub mod changed;
pub mod conflict;
pub mod lengths;
pub mod merged;
pub mod pinned;
pub mod reconcile;
pub mod taken;
