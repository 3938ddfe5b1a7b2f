// The calls that add and remove an edge. Where both do the same, `on` is true for an add and false for a removal.
ghost use Rattle.std.specs.Prelude.{◌≡◌};
ghost use Rattle.packed.specs.Edges.{with_edge};
ghost use Rattle.state.specs.Answers.{refusal_of};
ghost use Rattle.state.specs.Outcome.{left};
ghost use Rattle.edits.specs.Inside.Touched.{stale_each, Markable};
ghost use Rattle.edits.specs.Inside.Renewal.{renewal_by};
ghost use Rattle.edits.specs.Inside.Change.{Appliable, changed, edit_call, Edits, Steppable};
ghost use Rattle.edits.specs.Edit.{add_call, remove_call};
ghost use Rattle.state.specs.State.{state};

use crate::examined::examine;
use crate::renewal::{Renewal, bounds_of, renew};
use crate::touched::{Touched, touched_of};
use ego::neighbours::neighbours_of;
use packed::edges::link;
use state::marks::set_mark;
use state::refusal::Refusal;
use state::sizes::check_state;

// Marks the touched nodes stale.
fn mark_each(marks: &mut [u8], touching: &Touched)
    requires { Markable touching.now.nodes touching.now.count marks.old }
    ensures { marks.new ≡ stale_each touching.now.nodes marks.old touching.now.count }
{
    for &p in &touching.nodes[..touching.count] {
        set_mark(marks, p as usize, true);
    }
}

// Sets or clears the edge, marks the nodes that it touches, and names them with their bounds after it.
fn apply(
    edges: &mut [u8],
    marks: &mut [u8],
    n: usize,
    a: usize,
    b: usize,
    on: bool,
    touching: Touched,
) -> Renewal
    requires { Appliable edges.old marks.old n a b on touching }
    ensures value { result ≡ renewal_by on touching (with_edge edges.old a b on) n }
    ensures edges_after { edges.new ≡ with_edge edges.old a b on }
    ensures marks_after { marks.new ≡ stale_each touching.nodes marks.old touching.count }
{
    link(edges, a, b, on);
    mark_each(marks, &touching);
    Renewal {
        touching,
        bounds: bounds_of(edges, n, &touching),
        taken: if on { 2 } else { touching.count },
    }
}

// An add or a removal, with all its refusals, of the edges and marks of n nodes. The figures are left to be renewed.
pub fn edit(
    edges: &mut [u8],
    marks: &mut [u8],
    n: usize,
    a: usize,
    b: usize,
    on: bool,
) -> Result<Renewal, Refusal>
    ensures { Edits edges.old marks.old n a b on result edges.new marks.new }
{
    check_state(n, edges.len(), marks.len())?;
    let touching = examine(edges, n, a, b, on)?;
    Ok(apply(edges, marks, n, a, b, on, touching))
}

// The same, and the figures with it.
fn edit_state(
    edges: &mut [u8],
    figures: &mut [u64],
    marks: &mut [u8],
    a: usize,
    b: usize,
    on: bool,
) -> Result<(), Refusal>
    ensures { left (refusal_of result) (state edges.new figures.new marks.new) ≡ edit_call (state edges.old figures.old marks.old) a b on }
{
    let renewal = edit(edges, marks, figures.len(), a, b, on)?;
    renew(figures, &renewal);
    Ok(())
}

// Adds the edge a, b. Both ends take their bounds, and each common neighbour the smaller of its figure and its bound; all become stale.
pub fn add(
    edges: &mut [u8],
    figures: &mut [u64],
    marks: &mut [u8],
    a: usize,
    b: usize,
) -> Result<(), Refusal>
    ensures { left (refusal_of result) (state edges.new figures.new marks.new) ≡ add_call (state edges.old figures.old marks.old) a b }
{
    edit_state(edges, figures, marks, a, b, true)
}

// Removes the edge a, b. Both ends and their common neighbours take their bounds and become stale.
pub fn remove(
    edges: &mut [u8],
    figures: &mut [u64],
    marks: &mut [u8],
    a: usize,
    b: usize,
) -> Result<(), Refusal>
    ensures { left (refusal_of result) (state edges.new figures.new marks.new) ≡ remove_call (state edges.old figures.old marks.old) a b }
{
    edit_state(edges, figures, marks, a, b, false)
}

// An edit that no node's edges refuse.
pub fn edit_step(
    edges: &mut [u8],
    figures: &mut [u64],
    marks: &mut [u8],
    a: usize,
    b: usize,
    on: bool,
)
    requires { Steppable (state edges.old figures.old marks.old) a b on }
    ensures { state edges.new figures.new marks.new ≡ changed (state edges.old figures.old marks.old) a b on }
{
    let n = figures.len();
    let touching = touched_of(edges, &neighbours_of(edges, n, a), a, b);
    renew(figures, &apply(edges, marks, n, a, b, on, touching));
}
