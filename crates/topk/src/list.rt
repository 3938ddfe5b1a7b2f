// The list call over plain buffers.
ghost use Rattle.std.specs.Prelude.{◌++◌, ◌≡◌, length, replicate};
ghost use Rattle.packed.specs.Edges.{edge};
ghost use Rattle.state.specs.Answers.{refusal_of, value_of};
ghost use Rattle.state.specs.Outcome.{state_lengths};
ghost use Rattle.state.specs.Refusal.{refusal};
ghost use Rattle.state.specs.Sizes.{scratch_bytes};
ghost use Rattle.topk.specs.List.{list_call, list_conditions, listing, list_of};
ghost use Rattle.state.specs.State.{state};
ghost use Rattle.topk.specs.Inside.Turns.{ListFits, Leaves};

use crate::turns::run;
use state::crowded::any_strip_over;
use state::refusal::Refusal;
use state::scratch::scratch_bytes;
use state::sizes::check_state;

// The refusal of a list of k entries, of n nodes and so many bytes of marks and of scratch.
fn check_list(edges: &[u8], n: usize, marks: usize, k: usize, scratch: usize) -> Result<(), Refusal>
    ensures { refusal_of result ≡ refusal (state_lengths n (length edges.now) marks ++ list_conditions n (edge edges.now) k scratch) }
{
    check_state(n, edges.len(), marks)?;
    if scratch < scratch_bytes(n) {
        return Err(Refusal::Scratch);
    }
    if k == 0 || n < k {
        return Err(Refusal::EntryCount);
    }
    if any_strip_over(edges, n) {
        return Err(Refusal::CrowdedBefore);
    }
    Ok(())
}

// The list, where nothing turns it back. The scratch has a bit for each node, whatever it holds, and is all 0 afterwards.
fn accepted(
    edges: &[u8],
    figures: &mut [u64],
    marks: &mut [u8],
    entries: &mut [u64],
    scratch: &mut [u8],
    k: usize,
) -> u64
    requires { ListFits (length figures.old) edges.now marks.old entries.old k × (length scratch.old ≡ scratch_bytes (length figures.old)) }
    ensures { Leaves (list_of (state edges.now figures.old marks.old) k) figures.new marks.new entries.old entries.new result × (scratch.new ≡ replicate (scratch_bytes (length figures.old)) 0) }
{
    scratch.fill(0);
    let recomputed = run(edges, figures, marks, scratch, entries, k);
    scratch.fill(0);
    recomputed
}

// The list: the best k nodes go to the first k entries, k being half the entries' length. The scratch has a bit for each node, in whole bytes, or more.
// Answers how many nodes were recomputed.
pub fn list(
    edges: &[u8],
    figures: &mut [u64],
    marks: &mut [u8],
    entries: &mut [u64],
    scratch: &mut [u8],
) -> Result<u64, Refusal>
    ensures { listing (refusal_of result) (value_of result) (state edges.now figures.new marks.new) entries.new scratch.new ≡ list_call (state edges.now figures.old marks.old) entries.old scratch.old }
{
    let n = figures.len();
    let k = entries.len() / 2;
    check_list(edges, n, marks.len(), k, scratch.len())?;
    let used = scratch_bytes(n);
    Ok(accepted(edges, figures, marks, entries, &mut scratch[..used], k))
}
