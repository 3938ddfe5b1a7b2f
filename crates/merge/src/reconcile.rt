// The call that brings another editor's changes into the state.
ghost use Rattle.std.specs.Prelude.{[], ◌∷◌, ◌≡◌, IfOk};
ghost use Rattle.packed.specs.Edges.{edge};
ghost use Rattle.packed.specs.Inside.Degrees.{degrees_of};
ghost use Rattle.packed.specs.Inside.Room.{Room};
ghost use Rattle.state.specs.Answers.{refusal_of};
ghost use Rattle.state.specs.Refusal.{crowded_after, crowded_before, everyone, refusal};
ghost use Rattle.state.specs.Outcome.{left};
ghost use Rattle.merge.specs.Reconcile.{merged, reconcile_call};
ghost use Rattle.merge.specs.Inside.Steps.{merge_conditions};
ghost use Rattle.state.specs.State.{state};

use crate::brought::Changes;
use crate::lengths::check_two;
use crate::merged::corrected;
use crate::taken::take_theirs;
use packed::degrees::degrees_of;
use packed::edges::MAX_NODES;
use state::crowded::any_among;
use state::refusal::Refusal;
use state::sizes::check_state;

// The degrees before the call, or refusal 11.
pub(crate) fn check_before(edges: &[u8], n: usize) -> Result<[u16; MAX_NODES], Refusal>
    requires { Room n edges.now }
    ensures refused { refusal_of result ≡ refusal (crowded_before (edge edges.now) n everyone ∷ []) }
    ensures degrees { IfOk result (λ d. d ≡ degrees_of edges.now n) }
{
    let degrees = degrees_of(edges, n);
    if any_among(&degrees, n) {
        return Err(Refusal::CrowdedBefore);
    }
    Ok(degrees)
}

// Refusal 12 of a reconcile, from the degrees before it.
pub(crate) fn check_after(
    edges: &[u8],
    changes: Changes,
    n: usize,
    degrees: [u16; MAX_NODES],
) -> Result<(), Refusal>
    requires { Room n edges.now × Room n changes.theirs.now × Room n changes.base.now × (degrees ≡ degrees_of edges.now n) }
    ensures { refusal_of result ≡ refusal (crowded_after (merged (edge edges.now) (edge changes.entry.theirs.now) (edge changes.entry.base.now)) n everyone ∷ []) }
{
    let after = corrected(edges, changes, n, degrees);
    if any_among(&after, n) {
        return Err(Refusal::CrowdedAfter);
    }
    Ok(())
}

// The refusals of a reconcile after those of the state's lengths.
fn check_reconcile(edges: &[u8], changes: Changes, n: usize) -> Result<(), Refusal>
    requires { Room n edges.now }
    ensures { refusal_of result ≡ refusal (merge_conditions n edges.now changes.entry.theirs.now changes.entry.base.now) }
{
    check_two(n, changes.theirs.len(), changes.base.len())?;
    let degrees = check_before(edges, n)?;
    check_after(edges, changes, n, degrees)
}

// The pairs where theirs differs from the original and from mine take theirs.
pub fn reconcile(
    edges: &mut [u8],
    figures: &mut [u64],
    marks: &mut [u8],
    theirs: &[u8],
    base: &[u8],
) -> Result<(), Refusal>
    ensures { left (refusal_of result) (state edges.new figures.new marks.new) ≡ reconcile_call (state edges.old figures.old marks.old) theirs.now base.now }
{
    let n = figures.len();
    check_state(n, edges.len(), marks.len())?;
    let changes = Changes { theirs, base };
    check_reconcile(edges, changes, n)?;
    take_theirs(edges, figures, marks, changes);
    Ok(())
}
