// The breadth-first search: level by level, each the nodes that are linked to the last one's and were not reached before.
ghost use Rattle.std.specs.Prelude.{ℕ, List};
ghost use Rattle.ego.specs.Graph.{Graph};
ghost use Rattle.nearest.specs.Inside.Search.{Finds, Searchable};

use crate::spread::linked_to;
use crate::strips::{Strips, both, empty, first_of, insert, unite, without};

// The listed node over the fewest links, the lowest of those, and how many links they are.
#[derive(Clone, Copy, Debug, PartialEq, Eq)]
pub struct Near {
    pub node: usize,
    pub hops: u8,
}

// The nearest node of a set from node p on, within a limit of hops. The search stops at the first level that has one, and where a level has no node.
pub(crate) fn search(rows: &[u64], listed: Strips, p: usize, limit: u8) -> Option<Near>
    requires { (g : Graph) × (n : ℕ) × (l : List ℕ) × Searchable rows.now listed p g n l }
    ensures { Finds rows.now listed p limit result }
{
    let mut level = empty();
    insert(&mut level, p);
    if let Some(node) = first_of(both(level, listed)) {
        return Some(Near { node, hops: 0 });
    }
    let mut reached = level;
    for hops in 1..=limit {
        let next = without(linked_to(rows, level), reached);
        if let Some(node) = first_of(both(next, listed)) {
            return Some(Near { node, hops });
        }
        // Where nothing new is reached, nothing else ever is.
        first_of(next)?;
        unite(&mut reached, next);
        level = next;
    }
    None
}
