// What a set of nodes is linked to: the rows of its nodes, or-ed.
ghost use Rattle.std.specs.Prelude.{true, ◌&&◌, ◌||◌, ◌≡◌, ℕ, ◌^◌, ◌<◌};
ghost use Rattle.arith.specs.Sums.{any_to};
ghost use Rattle.packed.specs.Pairs.{max_nodes};
ghost use Rattle.packed.specs.Inside.Runs.{max_run};
ghost use Rattle.nearest.specs.Inside.Strips.{in_row, in_strip, in_strips, Narrow, places, SetOf, strips, Table};

use crate::strips::{STRIPS, Strips, empty};
use packed::runs::MAX_RUN;

// Puts the nodes of row q into a set.
fn unite_row(set: &mut Strips, rows: &[u64], q: usize)
    requires { (q < max_nodes) × Table rows.now × Narrow set.old }
    ensures { SetOf set.new (λ y. in_strips set.old y || in_row rows.now q y) }
{
    for (k, word) in set.iter_mut().enumerate() {
        *word |= rows[STRIPS * q + k];
    }
}

// Puts in the rows of the nodes of a word of strip k, the last node first.
fn unite_rows(set: &mut Strips, rows: &[u64], word: u64, k: usize)
    requires { (word < 2 ^ max_run) × (k < strips) × ((x : ℕ) → in_strip word k x ≡ true → x < max_nodes) × Table rows.now × Narrow set.old }
    ensures { SetOf set.new (λ y. in_strips set.old y || any_to (λ x. in_strip word k x && in_row rows.now x y) max_nodes) }
{
    let end = MAX_RUN * k + MAX_RUN;
    let mut left = word;
    while left != 0 {
        unite_row(set, rows, end - 1 - left.trailing_zeros() as usize);
        left &= left - 1;
    }
}

// The nodes that are in the row of some node of a set.
pub(crate) fn linked_to(rows: &[u64], set: Strips) -> Strips
    requires { Table rows.now × Narrow set × ((x : ℕ) → x < places → in_strips set x ≡ true → x < max_nodes) }
    ensures { SetOf result (λ y. any_to (λ x. in_strips set x && in_row rows.now x y) max_nodes) }
{
    let mut linked = empty();
    for (k, word) in set.iter().enumerate() {
        unite_rows(&mut linked, rows, *word, k);
    }
    linked
}
