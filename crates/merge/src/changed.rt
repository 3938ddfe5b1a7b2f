// The pairs that theirs has changed, in bit order.
ghost use Rattle.std.specs.Prelude.{◌≡◌, ◌≤◌, ◌<◌, ◌+◌, ◌-◌};
ghost use Rattle.std.specs.Iterator.{at_most};
ghost use Rattle.packed.specs.Pairs.{max_nodes, pair_count};
ghost use Rattle.packed.specs.Inside.Room.{Room};
ghost use Rattle.merge.specs.Inside.Walk.{PairAt, Place};

use crate::brought::Changes;
use packed::bits::next_differing;
use packed::edges::{MAX_NODES, row_start};

// A pair of nodes, a below b.
#[derive(Clone, Copy, Debug, PartialEq, Eq)]
pub struct Pair {
    pub a: usize,
    pub b: usize,
}

// The pair whose bit is i, which is not before the row of b.
pub(crate) fn pair_at(i: usize, b: usize) -> Pair
    requires { (pair_count b ≤ i) × (i < pair_count max_nodes) × (b ≤ max_nodes) }
    ensures { PairAt i b result }
{
    let mut start = row_start(b);
    for row in b..MAX_NODES {
        if i < start + row {
            return Pair {
                a: i - start,
                b: row,
            };
        }
        start += row;
    }
    unreachable!()
}

// A walk over the pairs of the n nodes that theirs has changed: it stands before the pair a, b or after the row of b.
#[derive(Drop)]
pub(crate) struct ChangedPairs<'a> {
    changes: Changes<'a>,
    n: usize,
    a: usize,
    b: usize,
    ghost walks: { Place n a b × Room n changes.theirs.now × Room n changes.base.now },
}

impl<'a> Changes<'a> {
    ghost use Rattle.merge.specs.Inside.Pairs.{WalksOn};

    // The pairs of the n nodes that theirs has changed.
    pub(crate) fn pairs(self, n: usize) -> ChangedPairs<'a>
        requires { Room n self.theirs.now × Room n self.base.now }
        ensures { WalksOn self.entry n result × (result.a ≡ 0) × (result.b ≡ 0) }
    {
        ChangedPairs {
            changes: self,
            n,
            a: 0,
            b: 0,
        }
    }
}

impl<'a> Iterator for ChangedPairs<'a> {
    ghost use Rattle.merge.specs.Inside.Pairs.{Walks};

    type Item = Pair;

    ghost next_gives = { Walks };

    ghost remaining = { λ s. at_most (pair_count s.n - (pair_count s.b + s.a)) };

    fn next(&mut self) -> Option<Pair> {
        let from = row_start(self.b) + self.a;
        let i = next_differing(
            self.changes.theirs,
            self.changes.base,
            from,
            row_start(self.n),
        )?;
        let pair = pair_at(i, self.b);
        self.a = pair.a + 1;
        self.b = pair.b;
        Some(pair)
    }
}
