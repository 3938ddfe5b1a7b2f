// The edges of an undirected graph of at most 256 nodes: a bit for each pair of nodes.
ghost use Rattle.std.specs.Prelude.{◌≢◌, ◌≡◌, ◌+◌, ◌≤◌, ◌<◌, max};
ghost use Rattle.arith.specs.Sums.{count_to};
ghost use Rattle.packed.specs.Pairs.{max_nodes, pair_count, pair_index, same_pair};
ghost use Rattle.packed.specs.Inside.Room.{Room};
ghost use Rattle.packed.specs.Edges.{edge, with_edge};

use crate::bits::{get, put};
use crate::rows::{row_of, size_of, words_for};

// The most nodes that a graph may have.
pub const MAX_NODES: usize = 256;

// Where the row of p starts, the bits of its pairs with the nodes below it, in order: how many pairs p nodes have.
pub fn row_start(p: usize) -> usize
    requires { p ≤ max_nodes }
    ensures { result ≡ pair_count p }
{
    (p * p - p) / 2
}

// The bit of the pair of a and b.
pub fn index(a: usize, b: usize) -> usize
    requires { (a < b) × (b < max_nodes) }
    ensures { result ≡ pair_index a b }
{
    row_start(b) + a
}

// The bit of the pair of two nodes, in either order.
pub fn number(a: usize, b: usize) -> usize
    requires { (a ≢ b) × (a < max_nodes) × (b < max_nodes) }
    ensures { result ≡ pair_index a b }
{
    index(a.min(b), a.max(b))
}

// Whether x and y are the pair of a and b, in either order.
pub fn same_pair(x: usize, y: usize, a: usize, b: usize) -> bool
    requires { x ≢ y }
    ensures { result ≡ same_pair x y a b }
{
    (x, y) == (a, b) || (x, y) == (b, a)
}

// Whether nodes a and b are linked, in either order. No node is linked to itself.
pub fn has(edges: &[u8], a: usize, b: usize) -> bool
    requires { Room (max a b + 1) edges.now }
    ensures { result ≡ edge edges.now a b }
{
    a != b && get(edges, number(a, b))
}

// Links nodes a and b where `on`, and takes their edge away elsewhere. A node gets no edge to itself.
pub fn link(edges: &mut [u8], a: usize, b: usize, on: bool)
    requires { Room (max a b + 1) edges.old }
    ensures { edges.new ≡ with_edge edges.old a b on }
{
    if a != b {
        put(edges, number(a, b), on);
    }
}

// How many of the n nodes are linked to p.
pub fn degree(edges: &[u8], n: usize, p: usize) -> usize
    requires { (p < n) × Room n edges.now }
    ensures { result ≡ count_to (edge edges.now p) n }
{
    size_of(row_of(edges, n, p), words_for(n))
}
