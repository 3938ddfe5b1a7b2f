// The neighbours of a node.
ghost use Rattle.std.specs.Prelude.{◌≡◌, ◌≤◌, ◌<◌};
ghost use Rattle.packed.specs.Pairs.{max_nodes};
ghost use Rattle.packed.specs.Inside.Room.{Room};
ghost use Rattle.ego.specs.Inside.Words.{first_members, first_neighbours};

use crate::limits::LIMIT;
use packed::rows::{Row, append, row_of, words_for};

// How many neighbours a node has, and the first of them, in order; 0 in the places past them.
#[derive(Clone, Copy)]
pub struct Neighbours {
    pub nodes: [u8; LIMIT],
    pub count: usize,
}

// The neighbours that a row of n nodes has.
pub fn members(row: Row, n: usize) -> Neighbours
    requires { n ≤ max_nodes }
    ensures { result ≡ first_members row n }
{
    let mut nodes = [0u8; LIMIT];
    let count = append(row, words_for(n), &mut nodes, 0);
    Neighbours { nodes, count }
}

// How many neighbours p has, and the first of them in order, as many as the limit; 0 in the places past them.
pub fn neighbours_of(edges: &[u8], n: usize, p: usize) -> Neighbours
    requires { (p < n) × Room n edges.now }
    ensures { result ≡ first_neighbours edges.now n p }
{
    members(row_of(edges, n, p), n)
}
