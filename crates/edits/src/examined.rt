// When an edit turns back, and which nodes it touches where it does not. `on` is true for an add and false for a removal.
ghost use Rattle.std.specs.Prelude.{◌++◌, ◌≡◌};
ghost use Rattle.packed.specs.Inside.Room.{Room};
ghost use Rattle.packed.specs.Edges.{edge};
ghost use Rattle.state.specs.Answers.{refusal_of};
ghost use Rattle.state.specs.Refusal.{refusal};
ghost use Rattle.edits.specs.Inside.Change.{Changeable, crowding, Examines, pair_conditions};

use crate::touched::{Touched, degrees_counted, touched_of};
use ego::limits::LIMIT;
use ego::neighbours::neighbours_of;
use packed::degrees::shift;
use packed::edges::has;
use state::crowded::any_among;
use state::refusal::{Refusal, check_pair};

// Refusals 4 and 5 of a pair; 6 of an add, 7 of a removal.
fn check_edge(edges: &[u8], n: usize, a: usize, b: usize, on: bool) -> Result<(), Refusal>
    requires { Room n edges.now }
    ensures { refusal_of result ≡ refusal (pair_conditions n (edge edges.now) a b on) }
{
    check_pair(n, a, b)?;
    if has(edges, a, b) != on {
        return Ok(());
    }
    Err(if on {
        Refusal::EdgePresent
    } else {
        Refusal::EdgeAbsent
    })
}

// Examines the degrees of an edit whose pair is accepted: refusals 11 and 12. A removal leaves no end more edges.
fn examine_degrees(edges: &[u8], n: usize, a: usize, b: usize, on: bool) -> Result<Touched, Refusal>
    requires { Changeable edges.now n a b on }
    ensures { Examines (crowding edges.now n a b on) edges.now n a b on result }
{
    let near = neighbours_of(edges, n, a);
    if LIMIT < near.count {
        return Err(Refusal::CrowdedBefore);
    }
    let touching = touched_of(edges, &near, a, b);
    let mut degrees = degrees_counted(edges, n, &touching, near.count);
    if any_among(&degrees, touching.count) {
        return Err(Refusal::CrowdedBefore);
    }
    // The ends come first: each has one edge more, or one less.
    shift(&mut degrees, 0, 1, on);
    if any_among(&degrees, 2) {
        return Err(Refusal::CrowdedAfter);
    }
    Ok(touching)
}

// Examines an edit of a graph of n nodes: refusals 4, 5, 6 or 7, 11 and 12.
pub fn examine(edges: &[u8], n: usize, a: usize, b: usize, on: bool) -> Result<Touched, Refusal>
    requires { Room n edges.now }
    ensures { Examines (pair_conditions n (edge edges.now) a b on ++ crowding edges.now n a b on) edges.now n a b on result }
{
    check_edge(edges, n, a, b, on)?;
    examine_degrees(edges, n, a, b, on)
}
