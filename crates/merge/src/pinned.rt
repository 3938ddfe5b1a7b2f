// The call that brings another editor's changes into the state, where each editor may have confirmed pairs.
ghost use Rattle.std.specs.Prelude.{◌≡◌};
ghost use Rattle.packed.specs.Edges.{edge};
ghost use Rattle.packed.specs.Inside.Room.{Room};
ghost use Rattle.state.specs.Answers.{refusal_of};
ghost use Rattle.state.specs.Refusal.{refusal};
ghost use Rattle.state.specs.Outcome.{left};
ghost use Rattle.merge.specs.Pinned.{pinned_call, pinned_conditions};
ghost use Rattle.merge.specs.Lent.{lent};
ghost use Rattle.state.specs.State.{state};

use crate::brought::Brought;
use crate::lengths::check_brought;
use crate::reconcile::{check_after, check_before};
use crate::taken::take_theirs;
use state::refusal::Refusal;
use state::sizes::check_state;

// The refusals of a reconcile with pins after those of the state's lengths.
fn check_pinned(edges: &[u8], brought: Brought, n: usize) -> Result<(), Refusal>
    requires { Room n edges.now }
    ensures { refusal_of result ≡ refusal (pinned_conditions n (edge edges.now) (lent brought.entry)) }
{
    check_brought(n, brought)?;
    let degrees = check_before(edges, n)?;
    if brought.any_conflict(edges, n) {
        return Err(Refusal::Conflict);
    }
    check_after(edges, brought.changes(), n, degrees)
}

// Where one editor has spoken on a pair, that state stands. Pins only turn the call back: where they do not, it is as without them.
pub fn reconcile_pinned(
    edges: &mut [u8],
    figures: &mut [u64],
    marks: &mut [u8],
    brought: Brought,
) -> Result<(), Refusal>
    ensures { left (refusal_of result) (state edges.new figures.new marks.new) ≡ pinned_call (state edges.old figures.old marks.old) (lent brought.entry) }
{
    let n = figures.len();
    check_state(n, edges.len(), marks.len())?;
    check_pinned(edges, brought, n)?;
    take_theirs(edges, figures, marks, brought.changes());
    Ok(())
}
