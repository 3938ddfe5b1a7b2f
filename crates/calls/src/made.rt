// Snapshots that a call makes of a file, at first beside the lent buffer: nothing lent alters where a node of one would be crowded.
ghost use Rattle.std.specs.Prelude.{◌≡◌, ◌≤◌, length};
ghost use Rattle.packed.specs.Inside.Room.{Room};
ghost use Rattle.state.specs.Answers.{refusal_of};
ghost use Rattle.state.specs.Refusal.{snapshot_edges};
ghost use Rattle.calls.specs.Snapshot.{written};
ghost use Rattle.calls.specs.Inside.Made.{made_call};

use state::crowded::any_over;
use state::refusal::Refusal;
use state::sizes::MAX_EDGE_BYTES;

// The bytes of the largest snapshot.
pub const MAX_SNAPSHOT: usize = MAX_EDGE_BYTES + 1;

// Writes as many bytes of a snapshot of n nodes as the buffer has. Refusal 12: a node of it would be crowded.
pub fn write_made(snapshot: &mut [u8], made: &[u8], n: usize) -> Result<(), Refusal>
    requires { (length snapshot.old ≤ length made.now) × (1 ≤ length made.now) × Room n (snapshot_edges made.now) }
    ensures { written (refusal_of result) snapshot.new ≡ made_call made.now n snapshot.old }
{
    if any_over(&made[1..], n) {
        return Err(Refusal::CrowdedAfter);
    }
    let size = snapshot.len();
    snapshot.copy_from_slice(&made[..size]);
    Ok(())
}
