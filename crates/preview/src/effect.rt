// What an edge brings a node and what it costs it, by the rules, and the change of its score.
ghost use Rattle.std.specs.Prelude.{List, ◌≡◌, ℕ, ◌<◌};
ghost use Rattle.preview.specs.Inside.ByWords.{new_shares_in, shared_falls_in, Worded};
ghost use Rattle.preview.specs.Inside.Effect.{change_by, CommonOf, Fits, OnCommon, OnNode, Reached};

use crate::ends::{End, Ends, place_of};
use crate::rules::Tables;

// In grains. An edge that is added brings the one and costs the other, and one that is removed the other way round.
#[derive(Clone, Copy)]
pub struct Effect {
    pub brings: u64,
    pub costs: u64,
}

impl Effect {
    // The change by an edge that is added where `on`, and removed elsewhere.
    pub(crate) fn change_by(&self, on: bool) -> i64
        requires { Fits self.now }
        ensures { result ≡ change_by on self.now }
    {
        let change = self.brings as i64 - self.costs as i64;
        if on { change } else { -change }
    }
}

// The effect on an end.
fn end_effect(tables: &Tables, end: &End) -> Effect
    requires { (end.now.at < end.now.near.count) × Worded end.now.words end.now.near.count }
    ensures { result ≡ record { brings = new_shares_in end.now.words end.now.near.count end.now.at; costs = shared_falls_in end.now.words end.now.near.count end.now.at } }
{
    Effect {
        brings: tables.new_shares(end),
        costs: tables.shared_falls(end),
    }
}

// The effect on a common neighbour w.
fn common_effect(tables: &Tables, ends: &Ends, w: usize) -> Effect
    requires { (edges : List ℕ) × (n : ℕ) × (a : ℕ) × (b : ℕ) × CommonOf edges n a b ends.now w }
    ensures { OnCommon ends.now w result × Fits result }
{
    let i = place_of(&ends.first.near, w).unwrap();
    let j = place_of(&ends.second.near, w).unwrap();
    Effect {
        brings: 0,
        costs: tables.common_falls(ends, i, j),
    }
}

// The effect of the edge a, b, whose ends are at hand, on a node that it touches.
pub(crate) fn effect_of(tables: &Tables, ends: &Ends, a: usize, b: usize, p: usize) -> Effect
    requires { (edges : List ℕ) × (n : ℕ) × Reached edges n a b ends.now p }
    ensures { OnNode ends.now a b p result × Fits result }
{
    if p == a {
        return end_effect(tables, &ends.first);
    }
    if p == b {
        return end_effect(tables, &ends.second);
    }
    common_effect(tables, ends, p)
}
