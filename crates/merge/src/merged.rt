// Whether a pair takes theirs, and all degrees after the call, worked out before anything is written.
ghost use Rattle.std.specs.Prelude.{◌≡◌, ◌+◌, max};
ghost use Rattle.packed.specs.Inside.Room.{Room};
ghost use Rattle.packed.specs.Edges.{edge};
ghost use Rattle.packed.specs.Inside.Degrees.{degrees_of};
ghost use Rattle.merge.specs.Reconcile.{takes};
ghost use Rattle.merge.specs.Inside.Steps.{corrects, Correctable, merged_edges};

use crate::brought::Changes;
use crate::changed::Pair;
use packed::degrees::shift;
use packed::edges::{MAX_NODES, has};

// Whether the pair takes theirs: it differs there from the original and from mine.
pub(crate) fn takes(edges: &[u8], changes: Changes, pair: Pair) -> bool
    requires { Room (max pair.a pair.b + 1) edges.now × Room (max pair.a pair.b + 1) changes.theirs.now × Room (max pair.a pair.b + 1) changes.base.now }
    ensures { result ≡ takes (edge edges.now) (edge changes.entry.theirs.now) (edge changes.entry.base.now) pair.a pair.b }
{
    let Pair { a, b } = pair;
    let there = has(changes.theirs, a, b);
    there != has(changes.base, a, b) && there != has(edges, a, b)
}

// The degrees as the pair leaves them.
fn correct(edges: &[u8], changes: Changes, degrees: &mut [u16], pair: Pair)
    requires { Correctable edges.now changes.theirs.now changes.base.now degrees.old pair.a pair.b }
    ensures { degrees.new ≡ corrects edges.now changes.entry.theirs.now changes.entry.base.now pair.a pair.b degrees.old }
{
    if takes(edges, changes, pair) {
        shift(degrees, pair.a, pair.b, has(changes.theirs, pair.a, pair.b));
    }
}

// The degrees of the n nodes after the call, from those before it.
pub(crate) fn corrected(
    edges: &[u8],
    changes: Changes,
    n: usize,
    mut degrees: [u16; MAX_NODES],
) -> [u16; MAX_NODES]
    requires { Room n edges.now × Room n changes.theirs.now × Room n changes.base.now × (degrees ≡ degrees_of edges.now n) }
    ensures { result ≡ degrees_of (merged_edges edges.now changes.entry.theirs.now changes.entry.base.now n) n }
{
    for pair in changes.pairs(n) {
        correct(edges, changes, &mut degrees, pair);
    }
    degrees
}
