// The rows of all nodes, a set for each, made of the packed bits in one pass: each link is put in at both its ends.
ghost use Rattle.std.specs.Prelude.{true, ◌&&◌, ◌||◌, ◌≡◌, ℕ, ◌+◌, ◌*◌, ◌^◌, ◌<◌, ◌≤◌, eqb, ltb, replicate};
ghost use Rattle.arith.specs.Sums.{any_to, count_to};
ghost use Rattle.packed.specs.Bits.{word_of};
ghost use Rattle.packed.specs.Edges.{edge};
ghost use Rattle.packed.specs.Pairs.{max_nodes};
ghost use Rattle.packed.specs.Inside.Room.{Room};
ghost use Rattle.packed.specs.Inside.Runs.{max_run};
ghost use Rattle.ego.specs.Limits.{limit};
ghost use Rattle.nearest.specs.Inside.Strips.{in_row, in_strip, places, Rows, strips, Table, table_words, TableOf};

use crate::strips::{STRIPS, bit_of};
use ego::limits::LIMIT;
use packed::edges::{MAX_NODES, row_start};
use packed::runs::{MAX_RUN, run_of};

// The words of a row for each node that a graph may have.
pub const TABLE_WORDS: usize = STRIPS * MAX_NODES;

// The neighbours of b below b in strip k, as the word of the strip.
fn word_below(edges: &[u8], b: usize, k: usize) -> u64
    requires { Room (b + 1) edges.now × (max_run * k < b) }
    ensures { result ≡ word_of (λ y. ltb y b && edge edges.now b y) (max_run * k) max_run }
{
    let count = (b - MAX_RUN * k).min(MAX_RUN);
    run_of(edges, row_start(b) + MAX_RUN * k, count) << (MAX_RUN - count)
}

// Each node of a word of strip k takes b into its row, the last node first.
fn mirror(rows: &mut [u64], word: u64, k: usize, b: usize)
    requires { (word < 2 ^ max_run) × (k < strips) × (b < max_nodes) × ((x : ℕ) → in_strip word k x ≡ true → x < max_nodes) × Table rows.old }
    ensures { TableOf rows.new (λ x y. in_row rows.old x y || (eqb y b && in_strip word k x)) }
{
    let column = b / MAX_RUN;
    let bit = bit_of(b);
    let end = MAX_RUN * k + MAX_RUN;
    let mut left = word;
    while left != 0 {
        let a = end - 1 - left.trailing_zeros() as usize;
        rows[STRIPS * a + column] |= bit;
        left &= left - 1;
    }
}

// Puts in the edges of b to the nodes below it, where those among these nodes are in.
fn link_row(edges: &[u8], rows: &mut [u64], b: usize)
    requires { Room (b + 1) edges.now × Rows (edge edges.now) b rows.old }
    ensures { Rows (edge edges.now) (b + 1) rows.new }
{
    // By number: what is written in the row of b goes at once into other rows of the same table, which a walk over the row would hold.
    for k in 0..b.div_ceil(MAX_RUN) {
        let word = word_below(edges, b, k);
        rows[STRIPS * b + k] = word;
        mirror(rows, word, k, b);
    }
}

// The rows of n nodes.
pub(crate) fn link_rows(edges: &[u8], rows: &mut [u64], n: usize)
    requires { Room n edges.now × (rows.old ≡ replicate table_words 0) }
    ensures { Rows (edge edges.now) n rows.new }
{
    for b in 0..n {
        link_row(edges, rows, b);
    }
}

// How many nodes row p has.
fn row_size(rows: &[u64], p: usize) -> usize
    requires { (p < max_nodes) × Table rows.now }
    ensures { result ≡ count_to (in_row rows.now p) places }
{
    let row = &rows[STRIPS * p..STRIPS * p + STRIPS];
    row.iter().map(|word| word.count_ones() as usize).sum()
}

// Whether a row of the n nodes has more nodes than the limit.
pub(crate) fn any_crowded(rows: &[u64], n: usize) -> bool
    requires { (n ≤ max_nodes) × Table rows.now }
    ensures { result ≡ any_to (λ p. ltb limit (count_to (in_row rows.now p) places)) n }
{
    (0..n).any(|p| LIMIT < row_size(rows, p))
}
