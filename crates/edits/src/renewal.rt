// What an edit leaves to be written to the figures, whatever form these have.
ghost use Rattle.std.specs.Prelude.{◌≡◌, length};
ghost use Rattle.packed.specs.Edges.{edge};
ghost use Rattle.ego.specs.Bound.{bound};
ghost use Rattle.edits.specs.Inside.Renewal.{BoundEach, Covers, figure_by, Renewable, renewed_by};
ghost use Rattle.edits.specs.Inside.Touched.{of_each};

use crate::touched::{MAX_TOUCHED, Touched};
use ego::bound::bound_of;
use packed::rows::{ROW_WORDS, Row, include, row_of, rows_within};

// The nodes that an edit touches, each with its bound: the first `taken` of them take their bounds, and the others the smaller of figure and bound.
#[derive(Clone, Copy)]
pub struct Renewal {
    pub touching: Touched,
    pub bounds: [u64; MAX_TOUCHED],
    pub taken: usize,
}

// The neighbours of the touched nodes.
fn neighbours_in(edges: &[u8], n: usize, touching: &Touched) -> Row
    requires { BoundEach edges.now n touching.now.nodes touching.now.count }
    ensures { Covers edges.now n touching.now.nodes touching.now.count result }
{
    let mut set = [0u32; ROW_WORDS];
    for &p in &touching.nodes[..touching.count] {
        include(&mut set, row_of(edges, n, p as usize));
    }
    set
}

// The bounds of the touched nodes, and 0 past them.
pub(crate) fn bounds_of(edges: &[u8], n: usize, touching: &Touched) -> [u64; MAX_TOUCHED]
    requires { BoundEach edges.now n touching.now.nodes touching.now.count }
    ensures { result ≡ of_each (bound (edge edges.now) n) touching.now.nodes touching.now.count }
{
    let below = rows_within(edges, n, neighbours_in(edges, n, touching));
    let mut bounds = [0u64; MAX_TOUCHED];
    for (i, &p) in touching.nodes[..touching.count].iter().enumerate() {
        bounds[i] = bound_of(edges, n, p as usize, &below);
    }
    bounds
}

// What becomes of the figure of a node that is renewed.
pub fn figure_by(figure: u64, bound: u64, takes: bool) -> u64
    ensures { result ≡ figure_by takes figure bound }
{
    if takes { bound } else { figure.min(bound) }
}

// The nodes of a renewal are renewed.
pub(crate) fn renew(figures: &mut [u64], by: &Renewal)
    requires { Renewable by.now (length figures.old) }
    ensures { figures.new ≡ renewed_by by.now figures.old }
{
    for (i, &p) in by.touching.nodes[..by.touching.count].iter().enumerate() {
        let figure = &mut figures[p as usize];
        *figure = figure_by(*figure, by.bounds[i], i < by.taken);
    }
}
