// Refusal 2 of the buffers that a reconcile brings: each has a bit for each pair.
ghost use Rattle.std.specs.Prelude.{[], ◌∷◌, ◌≡◌, ◌≤◌};
ghost use Rattle.packed.specs.Pairs.{max_nodes};
ghost use Rattle.state.specs.Answers.{refusal_of};
ghost use Rattle.state.specs.Refusal.{buffer_length, refusal};
ghost use Rattle.state.specs.Sizes.{edge_bytes};
ghost use Rattle.merge.specs.Pinned.{brought_lengths};
ghost use Rattle.merge.specs.Lent.{lent};

use crate::brought::Brought;
use state::refusal::Refusal;
use state::sizes::edge_bytes;

// Refusal 2 of two buffers of so many bytes.
pub(crate) fn check_two(n: usize, x: usize, y: usize) -> Result<(), Refusal>
    requires { n ≤ max_nodes }
    ensures { refusal_of result ≡ refusal (buffer_length (edge_bytes n) x ∷ buffer_length (edge_bytes n) y ∷ []) }
{
    let bytes = edge_bytes(n);
    if x != bytes || y != bytes {
        return Err(Refusal::Length);
    }
    Ok(())
}

// Refusal 2 of my pins, theirs, their pins and the original.
pub(crate) fn check_brought(n: usize, brought: Brought) -> Result<(), Refusal>
    requires { n ≤ max_nodes }
    ensures { refusal_of result ≡ refusal (brought_lengths n (lent brought.entry)) }
{
    check_two(n, brought.pins.len(), brought.theirs.len())?;
    check_two(n, brought.their_pins.len(), brought.base.len())
}
