// How long the lent buffers are, and the refusals of those that are not.
ghost use Rattle.std.specs.Prelude.{[], ◌∷◌, ◌≡◌, ◌≤◌};
ghost use Rattle.packed.specs.Pairs.{max_nodes};
ghost use Rattle.state.specs.Answers.{refusal_of};
ghost use Rattle.state.specs.Sizes.{edge_bytes};
ghost use Rattle.state.specs.Marks.{mark_bytes};
ghost use Rattle.state.specs.Refusal.{node_count, refusal};
ghost use Rattle.state.specs.Outcome.{edge_lengths, state_lengths};

use crate::refusal::Refusal;
use packed::edges::{MAX_NODES, row_start};

// The bytes of the edges and the marks of MAX_NODES nodes.
pub const MAX_EDGE_BYTES: usize = MAX_NODES * (MAX_NODES - 1) / 2 / 8;

pub const MAX_MARK_BYTES: usize = MAX_NODES / 8;

// The bytes that hold the edges of n nodes.
pub fn edge_bytes(n: usize) -> usize
    requires { n ≤ max_nodes }
    ensures { result ≡ edge_bytes n }
{
    row_start(n).div_ceil(8)
}

// The bytes that hold the marks of n nodes. A scratch has as many, by a rule of its own (scratch_bytes).
pub fn mark_bytes(n: usize) -> usize
    requires { n ≤ max_nodes }
    ensures { result ≡ mark_bytes n }
{
    n.div_ceil(8)
}

// Refusal 1 of n nodes.
pub fn check_count(n: usize) -> Result<(), Refusal>
    ensures { refusal_of result ≡ refusal (node_count n ∷ []) }
{
    if n == 0 || MAX_NODES < n {
        return Err(Refusal::NodeCount);
    }
    Ok(())
}

// Refusals 1 and 2 of n nodes and so many bytes of edges.
pub fn check_edges(n: usize, edges: usize) -> Result<(), Refusal>
    ensures { refusal_of result ≡ refusal (edge_lengths n edges) }
{
    check_count(n)?;
    if edges != edge_bytes(n) {
        return Err(Refusal::Length);
    }
    Ok(())
}

// Refusals 1 and 2 of n nodes and so many bytes of edges and of marks.
pub fn check_state(n: usize, edges: usize, marks: usize) -> Result<(), Refusal>
    ensures { refusal_of result ≡ refusal (state_lengths n edges marks) }
{
    check_edges(n, edges)?;
    if marks != mark_bytes(n) {
        return Err(Refusal::Length);
    }
    Ok(())
}
