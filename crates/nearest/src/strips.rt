// Sets of nodes by value, as words of 56 bits, a strip of nodes each, the first node the highest: a run of a node's packed bits is such a word.
ghost use Rattle.std.specs.Prelude.{false, not, ◌&&◌, ◌||◌, ◌≡◌, ◌-◌, ◌%◌, ◌^◌, ◌<◌, eqb};
ghost use Rattle.packed.specs.Inside.Runs.{max_run};
ghost use Rattle.packed.specs.Inside.Search.{FirstIn};
ghost use Rattle.nearest.specs.Inside.Strips.{in_strips, Narrow, places, SetOf};

use packed::bits::first_one;
use packed::runs::MAX_RUN;
use std::array;

// The words of a set.
pub const STRIPS: usize = 5;

pub type Strips = [u64; STRIPS];

// The bit of node q in the word of its strip.
pub(crate) fn bit_of(q: usize) -> u64
    ensures { result ≡ 2 ^ (max_run - 1 - q % max_run) }
{
    1u64 << (MAX_RUN - 1 - q % MAX_RUN)
}

// The set without nodes.
pub(crate) fn empty() -> Strips
    ensures { SetOf result (λ q. false) }
{
    [0u64; STRIPS]
}

// Puts node q into a set.
pub(crate) fn insert(set: &mut Strips, q: usize)
    requires { (q < places) × Narrow set.old }
    ensures { SetOf set.new (λ x. in_strips set.old x || eqb x q) }
{
    set[q / MAX_RUN] |= bit_of(q);
}

// The nodes that two sets have in common.
pub(crate) fn both(x: Strips, y: Strips) -> Strips
    requires { Narrow x }
    ensures { SetOf result (λ q. in_strips x q && in_strips y q) }
{
    array::from_fn(|k| x[k] & y[k])
}

// Puts the nodes of another set into a set.
pub(crate) fn unite(set: &mut Strips, other: Strips)
    requires { Narrow set.old × Narrow other }
    ensures { SetOf set.new (λ q. in_strips set.old q || in_strips other q) }
{
    for (k, word) in set.iter_mut().enumerate() {
        *word |= other[k];
    }
}

// The nodes of x that y has not.
pub(crate) fn without(x: Strips, y: Strips) -> Strips
    requires { Narrow x × Narrow y }
    ensures { SetOf result (λ q. in_strips x q && not (in_strips y q)) }
{
    array::from_fn(|k| x[k] & !y[k])
}

// The lowest node of a set.
pub(crate) fn first_of(set: Strips) -> Option<usize>
    requires { Narrow set }
    ensures { FirstIn (in_strips set) 0 places result }
{
    for (k, word) in set.iter().enumerate() {
        let found = first_one(*word, 64 - MAX_RUN);
        if found < 64 {
            return Some(MAX_RUN * k + (found - (64 - MAX_RUN)));
        }
    }
    None
}
