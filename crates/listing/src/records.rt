// The list over entries that are lent as records: one thin function over the list on plain numbers.
ghost use Rattle.std.specs.Prelude.{◌≡◌};
ghost use Rattle.listing.specs.Records.{entries_call};
ghost use Rattle.state.specs.Answers.{refusal_of, value_of};
ghost use Rattle.state.specs.State.{state};
ghost use Rattle.topk.specs.List.{listing};

use packed::edges::MAX_NODES;
use state::refusal::Refusal;
use topk::entries::{Entry, entry_at};
use topk::list::list;

// The entries that the numbers have room for: one more than there can be nodes. More are refused as one too many is.
pub const ROWS: usize = MAX_NODES + 1;

// The list: the best k nodes go to the k entries that are lent. The scratch has a bit for each node, in whole bytes, or more.
// Answers how many nodes were recomputed.
pub fn list_entries(
    edges: &[u8],
    figures: &mut [u64],
    marks: &mut [u8],
    entries: &mut [Entry],
    scratch: &mut [u8],
) -> Result<u64, Refusal>
    ensures { listing (refusal_of result) (value_of result) (state edges.now figures.new marks.new) entries.new scratch.new ≡ entries_call (state edges.now figures.old marks.old) entries.old scratch.old }
{
    let mut numbers = [0; 2 * ROWS];
    let end = 2 * entries.len().min(ROWS);
    let recomputed = list(edges, figures, marks, &mut numbers[..end], scratch)?;
    for (i, entry) in entries.iter_mut().enumerate() {
        *entry = entry_at(&numbers, i);
    }
    Ok(recomputed)
}
