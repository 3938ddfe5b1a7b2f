// The pairs that take theirs.
ghost use Rattle.std.specs.Prelude.{◌≡◌, ◌<◌, length};
ghost use Rattle.packed.specs.Edges.{edge};
ghost use Rattle.merge.specs.Reconcile.{reconcile_call, reconciled};
ghost use Rattle.merge.specs.Inside.Steps.{Ready, stepped, all_stepped};
ghost use Rattle.state.specs.State.{state};

use crate::brought::Changes;
use crate::changed::Pair;
use crate::merged::takes;
use edits::edit::edit_step;
use packed::edges::has;

// Sets the pair to `on` where it takes theirs and theirs has it so.
fn take(
    edges: &mut [u8],
    figures: &mut [u64],
    marks: &mut [u8],
    changes: Changes,
    pair: Pair,
    on: bool,
)
    requires { (pair.a < pair.b) × (pair.b < length figures.old) × Ready on changes.theirs.now changes.base.now (state edges.old figures.old marks.old) }
    ensures { state edges.new figures.new marks.new ≡ stepped on (edge changes.entry.theirs.now) (edge changes.entry.base.now) pair.a pair.b (state edges.old figures.old marks.old) }
{
    if takes(edges, changes, pair) && has(changes.theirs, pair.a, pair.b) == on {
        edit_step(edges, figures, marks, pair.a, pair.b, on);
    }
}

// The same at every pair, in bit order.
pub(crate) fn take_all(
    edges: &mut [u8],
    figures: &mut [u64],
    marks: &mut [u8],
    changes: Changes,
    on: bool,
)
    requires { Ready on changes.theirs.now changes.base.now (state edges.old figures.old marks.old) }
    ensures { state edges.new figures.new marks.new ≡ all_stepped on changes.entry.theirs.now changes.entry.base.now (state edges.old figures.old marks.old) }
{
    for pair in changes.pairs(figures.len()) {
        take(edges, figures, marks, changes, pair, on);
    }
}

// The removals, then the additions.
pub(crate) fn take_theirs(edges: &mut [u8], figures: &mut [u64], marks: &mut [u8], changes: Changes)
    requires { (reconcile_call (state edges.old figures.old marks.old) changes.theirs.now changes.base.now).refusal ≡ 0 }
    ensures { state edges.new figures.new marks.new ≡ reconciled (state edges.old figures.old marks.old) changes.entry.theirs.now changes.entry.base.now }
{
    take_all(edges, figures, marks, changes, false);
    take_all(edges, figures, marks, changes, true);
}
