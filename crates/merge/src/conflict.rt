// The pairs on which both editors have spoken and which they left different.
ghost use Rattle.std.specs.Prelude.{◌≡◌, ◌*◌, ◌≤◌};
ghost use Rattle.packed.specs.Edges.{edge};
ghost use Rattle.packed.specs.Pairs.{any_pair, max_nodes, pair_count};
ghost use Rattle.packed.specs.Inside.Search.{FirstIn, WordHas};
ghost use Rattle.state.specs.Answers.{found};
ghost use Rattle.merge.specs.Conflict.{conflict_call};
ghost use Rattle.merge.specs.Pinned.{in_conflict};
ghost use Rattle.merge.specs.Lent.{lent};
ghost use Rattle.merge.specs.Inside.Bitwise.{conflict_bit, Rooms};

use crate::brought::Brought;
use crate::changed::{Pair, pair_at};
use crate::lengths::check_brought;
use packed::bits::{first_one, same_words};
use packed::edges::row_start;
use packed::runs::word_at;
use state::refusal::Refusal;
use state::sizes::check_edges;

impl<'a> Brought<'a> {
    // The conflicts among the 64 pairs from byte k on, a bit for each.
    fn conflicts_at(self, edges: &[u8], k: usize) -> u64
        requires { Rooms (8 * k) edges.now (lent self) }
        ensures { WordHas (conflict_bit edges.now (lent self.entry)) k result }
    {
        let mine = word_at(edges, k);
        let other = word_at(self.theirs, k);
        let original = word_at(self.base, k);
        let spoken = word_at(self.pins, k) | (mine ^ original);
        let other_spoken = word_at(self.their_pins, k) | (other ^ original);
        spoken & other_spoken & (mine ^ other)
    }

    // The bit of the first conflict, of those before `end`.
    fn conflict_bit(self, edges: &[u8], end: usize) -> Option<usize>
        requires { Rooms end edges.now (lent self) }
        ensures { FirstIn (conflict_bit edges.now (lent self.entry)) 0 end result }
    {
        let mut i: usize = 0;
        // It jumps over the words that both left alike, so its steps are of no range.
        while i < end {
            let word = self.conflicts_at(edges, i / 8);
            let found = first_one(word, 0);
            if end - i <= found {
                return None;
            }
            if found < 64 {
                return Some(i + found);
            }
            let next = i / 8 + 8;
            i = 8 * (next + 8 * same_words(edges, self.theirs, next, (end / 8 - next) / 8));
        }
        None
    }

    // Whether some pair of the n nodes is in conflict.
    pub(crate) fn any_conflict(self, edges: &[u8], n: usize) -> bool
        requires { (n ≤ max_nodes) × Rooms (pair_count n) edges.now (lent self) }
        ensures { result ≡ any_pair (in_conflict (edge edges.now) (lent self.entry)) n }
    {
        self.conflict_bit(edges, row_start(n)).is_some()
    }
}

// The first conflict in bit order between mine, which has the edges, and theirs.
pub fn first_conflict(edges: &[u8], n: usize, brought: Brought) -> Result<Option<Pair>, Refusal>
    ensures { found result ≡ conflict_call edges.now n (lent brought.entry) }
{
    check_edges(n, edges.len())?;
    check_brought(n, brought)?;
    let Some(i) = brought.conflict_bit(edges, row_start(n)) else {
        return Ok(None);
    };
    Ok(Some(pair_at(i, 0)))
}
