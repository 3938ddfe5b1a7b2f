// The call that finds the nearest listed node.
ghost use Rattle.std.specs.Prelude.{map, ◌∷◌, ◌≡◌, ℕ, ◌<◌, get_or, length};
ghost use Rattle.arith.specs.Lists.{elem};
ghost use Rattle.packed.specs.Pairs.{max_nodes};
ghost use Rattle.state.specs.Answers.{found, refusal_of};
ghost use Rattle.state.specs.Refusal.{node_number, refusal};
ghost use Rattle.nearest.specs.Nearest.{answer_of, nearest_call, numbers_of};
ghost use Rattle.nearest.specs.Inside.Strips.{SetOf};

use crate::search::{Near, search};
use crate::strips::{Strips, empty, insert};
use crate::table::{TABLE_WORDS, any_crowded, link_rows};
use state::refusal::Refusal;
use state::sizes::check_edges;

// Refusal 4 of node p and of the listed ones.
fn check_nodes(n: usize, p: usize, listed: &[u64]) -> Result<(), Refusal>
    ensures { refusal_of result ≡ refusal (node_number n p ∷ map (node_number n) listed.now) }
{
    if n <= p || listed.iter().any(|&q| n as u64 <= q) {
        return Err(Refusal::Node);
    }
    Ok(())
}

// The listed nodes as a set.
fn set_of(listed: &[u64]) -> Strips
    requires { (i : ℕ) → i < length listed.now → get_or listed.now i 0 < max_nodes }
    ensures { SetOf result (λ q. elem q listed.now) }
{
    let mut set = empty();
    for &q in listed {
        insert(&mut set, q as usize);
    }
    set
}

// The listed node that is reached from node p over the fewest links, at most `limit` of them; of several the lowest.
pub fn nearest_listed(
    edges: &[u8],
    n: usize,
    p: usize,
    listed: &[u64],
    limit: u8,
) -> Result<Option<Near>, Refusal>
    ensures { (found result ≡ nearest_call edges.now n p listed.now limit) × (numbers_of (found result) ≡ answer_of edges.now n p listed.now limit) }
{
    check_edges(n, edges.len())?;
    check_nodes(n, p, listed)?;
    let mut rows = [0u64; TABLE_WORDS];
    link_rows(edges, &mut rows, n);
    if any_crowded(&rows, n) {
        return Err(Refusal::CrowdedBefore);
    }
    Ok(search(&rows, set_of(listed), p, limit))
}
