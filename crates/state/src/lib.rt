// The lent state of a graph: its lengths, marks and figures, the refusals, and the nodes that have too many edges.
#![tactic(auto)]

pub mod crowded;
pub mod figures;
pub mod marks;
pub mod refusal;
pub mod scratch;
pub mod sizes;
