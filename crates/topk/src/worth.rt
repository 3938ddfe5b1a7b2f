// What a node is worth when it is taken.
ghost use Rattle.std.specs.Prelude.{◌≡◌, ◌<◌, length};
ghost use Rattle.packed.specs.Edges.{edge};
ghost use Rattle.ego.specs.Score.{score};
ghost use Rattle.topk.specs.Inside.Turns.{worth_of, Scorable, Workable};

use ego::neighbours::neighbours_of;
use ego::score::score_of;
use state::marks::is_stale;

// A node's figure as it is listed, and how many nodes have been recomputed then.
#[derive(Clone, Copy)]
pub struct Worth {
    pub figure: u64,
    pub recomputed: u64,
}

// The score of node p, where no node has too many edges.
fn fresh_score(edges: &[u8], n: usize, p: usize) -> u64
    requires { (p < n) × Scorable n edges.now }
    ensures { result ≡ score (edge edges.now) n p }
{
    let near = neighbours_of(edges, n, p);
    score_of(edges, &near)
}

// A stale node is recomputed; an exact node's figure is its own. So many nodes were recomputed before.
pub(crate) fn worth_of(
    edges: &[u8],
    figures: &[u64],
    marks: &[u8],
    p: usize,
    recomputed: u64,
) -> Worth
    requires { (p < length figures.now) × Workable (length figures.now) edges.now marks.now × (recomputed < length figures.now) }
    ensures { result ≡ worth_of edges.now figures.now marks.now p recomputed }
{
    if is_stale(marks, p) {
        return Worth {
            figure: fresh_score(edges, figures.len(), p),
            recomputed: recomputed + 1,
        };
    }
    Worth {
        figure: figures[p],
        recomputed,
    }
}
