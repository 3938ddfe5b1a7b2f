// The calls that preview an add and a remove. Where both do the same, `on` is true for an add and false for a removal.
ghost use Rattle.std.specs.Prelude.{true, ◌≡◌, length};
ghost use Rattle.packed.specs.Edges.{edge, with_edge};
ghost use Rattle.edits.specs.Inside.Change.{Editable};
ghost use Rattle.preview.specs.Preview.{preview_add_call, previewed, preview_remove_call};
ghost use Rattle.preview.specs.Inside.Effect.{change_each};
ghost use Rattle.preview.specs.Inside.Call.{preview_call};
ghost use Rattle.state.specs.Answers.{refusal_of};
ghost use Rattle.state.specs.State.{state};

use crate::effect::effect_of;
use crate::ends::ends_of;
use crate::rules::Tables;
use edits::examined::examine;
use edits::touched::Touched;
use state::refusal::Refusal;
use state::sizes::check_state;

// Writes the change of each node that an edit touches.
fn put_each(
    edges: &[u8],
    n: usize,
    changes: &mut [i64],
    a: usize,
    b: usize,
    on: bool,
    touching: &Touched,
)
    requires { Editable edges.now n a b on touching.now × (length changes.old ≡ n) }
    ensures { changes.new ≡ change_each (edge (with_edge edges.now a b true)) n a b on touching.now.nodes changes.old touching.now.count }
{
    let tables = Tables::new();
    let ends = ends_of(edges, n, a, b);
    for &node in &touching.nodes[..touching.count] {
        let p = node as usize;
        changes[p] = effect_of(&tables, &ends, a, b, p).change_by(on);
    }
}

// A preview, with all its refusals.
fn preview(
    edges: &[u8],
    figures: &[u64],
    marks: &[u8],
    changes: &mut [i64],
    a: usize,
    b: usize,
    on: bool,
) -> Result<(), Refusal>
    ensures { previewed (refusal_of result) changes.new ≡ preview_call (state edges.now figures.now marks.now) changes.old a b on }
{
    let n = figures.len();
    check_state(n, edges.len(), marks.len())?;
    if changes.len() != n {
        return Err(Refusal::Length);
    }
    let touching = examine(edges, n, a, b, on)?;
    changes.fill(0);
    put_each(edges, n, changes, a, b, on, &touching);
    Ok(())
}

// What adding the edge a, b would change: for each node the signed change of its score, in grains. The state is only read.
pub fn preview_add(
    edges: &[u8],
    figures: &[u64],
    marks: &[u8],
    changes: &mut [i64],
    a: usize,
    b: usize,
) -> Result<(), Refusal>
    ensures { previewed (refusal_of result) changes.new ≡ preview_add_call (state edges.now figures.now marks.now) changes.old a b }
{
    preview(edges, figures, marks, changes, a, b, true)
}

// What removing the edge a, b would change. The state is only read.
pub fn preview_remove(
    edges: &[u8],
    figures: &[u64],
    marks: &[u8],
    changes: &mut [i64],
    a: usize,
    b: usize,
) -> Result<(), Refusal>
    ensures { previewed (refusal_of result) changes.new ≡ preview_remove_call (state edges.now figures.now marks.now) changes.old a b }
{
    preview(edges, figures, marks, changes, a, b, false)
}
