// The scratch of a list: a bit for each node, in whole bytes.
ghost use Rattle.std.specs.Prelude.{◌≡◌, ◌≤◌};
ghost use Rattle.packed.specs.Pairs.{max_nodes};
ghost use Rattle.state.specs.Sizes.{scratch_bytes};

use packed::edges::MAX_NODES;

// The bytes of it that MAX_NODES nodes take.
pub const MAX_SCRATCH_BYTES: usize = MAX_NODES / 8;

// The bytes of it that n nodes take. The marks have as many, by a rule of their own: either length may change alone.
pub fn scratch_bytes(n: usize) -> usize
    requires { n ≤ max_nodes }
    ensures { result ≡ scratch_bytes n }
{
    n.div_ceil(8)
}
