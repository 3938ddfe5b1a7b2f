// The arrays that the program lends, all 0.
ghost use Rattle.std.specs.Prelude.{◌≡◌, ◌+◌, ◌*◌, replicate};
ghost use Rattle.packed.specs.Pairs.{max_nodes};
ghost use Rattle.script.specs.Limits.{max_bytes};
ghost use Rattle.state.specs.Inside.MaxSizes.{max_edge_bytes};
ghost use Rattle.state.specs.Marks.{mark_bytes};
ghost use Rattle.state.specs.Sizes.{scratch_bytes};

use packed::edges::MAX_NODES;
use script::step::MAX_BYTES;
use state::scratch::MAX_SCRATCH_BYTES;
use state::sizes::{MAX_EDGE_BYTES, MAX_MARK_BYTES};

// The most bytes of a script, and one more to tell a longer input.
pub(crate) fn input() -> [u8; MAX_BYTES + 1]
    ensures { result ≡ replicate (max_bytes + 1) 0 }
{
    [0; MAX_BYTES + 1]
}

// The edges of the most nodes.
pub(crate) fn edges() -> [u8; MAX_EDGE_BYTES]
    ensures { result ≡ replicate max_edge_bytes 0 }
{
    [0; MAX_EDGE_BYTES]
}

// Their figures.
pub(crate) fn figures() -> [u64; MAX_NODES]
    ensures { result ≡ replicate max_nodes 0 }
{
    [0; MAX_NODES]
}

// Their marks.
pub(crate) fn marks() -> [u8; MAX_MARK_BYTES]
    ensures { result ≡ replicate (mark_bytes max_nodes) 0 }
{
    [0; MAX_MARK_BYTES]
}

// An entry of two numbers for each.
pub(crate) fn entries() -> [u64; 2 * MAX_NODES]
    ensures { result ≡ replicate (2 * max_nodes) 0 }
{
    [0; 2 * MAX_NODES]
}

// The scratch of their list.
pub(crate) fn scratch() -> [u8; MAX_SCRATCH_BYTES]
    ensures { result ≡ replicate (scratch_bytes max_nodes) 0 }
{
    [0; MAX_SCRATCH_BYTES]
}
