// The figures of a state's nodes: cached scores, or bounds of them.
ghost use Rattle.std.specs.Prelude.{◌≡◌, length};
ghost use Rattle.state.specs.Inside.Bounds.{Boundable, bounds_of};

use ego::bound::bound_of;
use packed::rows::{every_node, rows_within};

// Sets every figure to its node's bound.
pub fn set_bounds(edges: &[u8], figures: &mut [u64])
    requires { Boundable edges.now (length figures.old) }
    ensures { figures.new ≡ bounds_of edges.now (length figures.old) }
{
    let n = figures.len();
    let below = rows_within(edges, n, every_node());
    for (p, figure) in figures.iter_mut().enumerate() {
        *figure = bound_of(edges, n, p, &below[..]);
    }
}
