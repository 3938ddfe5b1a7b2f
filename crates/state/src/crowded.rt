// Nodes that have more edges than the limit.
ghost use Rattle.std.specs.Prelude.{◌≡◌, ◌*◌, ◌+◌, ◌-◌, ◌<◌, ◌≤◌, min, ltb, length, get_or};
ghost use Rattle.arith.specs.Sums.{any_to};
ghost use Rattle.packed.specs.Inside.Room.{Room};
ghost use Rattle.packed.specs.Inside.Runs.{max_run};
ghost use Rattle.packed.specs.Edges.{edge};
ghost use Rattle.ego.specs.Graph.{degree};
ghost use Rattle.ego.specs.Limits.{limit};
ghost use Rattle.state.specs.Refusal.{too_many, everyone};

use ego::limits::LIMIT;
use packed::degrees::{degrees_of, strip_of};
use packed::runs::MAX_RUN;

// Whether one of the first n degrees is too many.
pub fn any_among(degrees: &[u16], n: usize) -> bool
    requires { n ≤ length degrees.now }
    ensures { result ≡ any_to (λ p. ltb limit (get_or degrees.now p 0)) n }
{
    degrees[..n].iter().any(|&d| LIMIT < d as usize)
}

// Whether any node has too many edges.
pub fn any_over(edges: &[u8], n: usize) -> bool
    requires { Room n edges.now }
    ensures { result ≡ too_many (edge edges.now) n everyone }
{
    let degrees = degrees_of(edges, n);
    any_among(&degrees[..], n)
}

// Whether a node of strip k has too many edges.
fn strip_over(edges: &[u8], n: usize, k: usize) -> bool
    requires { Room n edges.now × (max_run * k < n) }
    ensures { result ≡ any_to (λ j. ltb limit (degree (edge edges.now) n (max_run * k + j))) (min (n - max_run * k) max_run) }
{
    let degrees = strip_of(edges, n, k);
    any_among(&degrees[..], MAX_RUN.min(n - MAX_RUN * k))
}

// The same, strip by strip: no table of all degrees is held.
pub fn any_strip_over(edges: &[u8], n: usize) -> bool
    requires { Room n edges.now }
    ensures { result ≡ too_many (edge edges.now) n everyone }
{
    (0..n.div_ceil(MAX_RUN)).any(|k| strip_over(edges, n, k))
}
