// The degrees of the nodes of a strip, as many as a run of bits has, or of all nodes, in one pass over the bits.
ghost use Rattle.std.specs.Prelude.{◌≡◌, ◌*◌, ◌+◌, ◌≤◌, ◌<◌, min, length, replicate};
ghost use Rattle.arith.specs.Sums.{bit, count_to};
ghost use Rattle.packed.specs.Edges.{edge};
ghost use Rattle.packed.specs.Inside.Room.{Room};
ghost use Rattle.packed.specs.Inside.Runs.{max_run};
ghost use Rattle.packed.specs.Inside.Degrees.{Counted, degrees_from, degrees_of, degrees_to, InRow, moved, Placed, shifted, Shiftable};

use crate::edges::{MAX_NODES, row_start};
use crate::runs::{MAX_RUN, run_of};

// Counts the edges of node b to the nodes from `at` up to `end` at these nodes, the first place being that of node `first`, and returns how many
// they are. The last node comes first: its bit is the lowest.
fn count_run(edges: &[u8], counts: &mut [u16], first: usize, b: usize, at: usize, end: usize) -> u16
    requires { InRow edges.now first (length counts.old) b at end × (counts.old ≡ degrees_to edges.now first (length counts.old) b at) }
    ensures { Counted edges.now counts.new first (length counts.old) b at end result }
{
    let mut own: u16 = 0;
    let mut left = run_of(edges, row_start(b) + at, end - at);
    while left != 0 {
        let place = end - first - 1 - left.trailing_zeros() as usize;
        counts[place] += 1;
        own += 1;
        left &= left - 1;
    }
    own
}

// How many of the nodes of the first k strips node b is linked to.
fn ones_before(edges: &[u8], b: usize, k: usize) -> u16
    requires { Room (b + 1) edges.now × (max_run * k ≤ b) }
    ensures { result ≡ count_to (edge edges.now b) (max_run * k) }
{
    let start = row_start(b);
    let mut own: u16 = 0;
    for i in 0..k {
        own += run_of(edges, start + MAX_RUN * i, MAX_RUN).count_ones() as u16;
    }
    own
}

// The degrees of the nodes from strip k on among the nodes through b, one of them, from those among the nodes before b.
fn count_row(edges: &[u8], counts: &mut [u16], k: usize, b: usize)
    requires { Placed edges.now (max_run * k) (length counts.old) b × (counts.old ≡ degrees_from edges.now (max_run * k) (length counts.old) b) }
    ensures { counts.new ≡ degrees_from edges.now (max_run * k) (length counts.old) (b + 1) }
{
    let first = MAX_RUN * k;
    let mut own = ones_before(edges, b, k);
    let mut at = first;
    // No `for` over the strips: the division that counts them takes a list a tenth longer.
    while at < b {
        let end = at + MAX_RUN.min(b - at);
        own += count_run(edges, counts, first, b, at, end);
        at = end;
    }
    counts[b - first] = own;
}

// The degrees of the nodes from strip k on among the nodes before `end`, each of them from strip k on having a place.
fn count_rows(edges: &[u8], counts: &mut [u16], k: usize, end: usize)
    requires { Room end edges.now × (max_run * k ≤ end) × (end ≤ max_run * k + length counts.old) × (counts.old ≡ replicate (length counts.old) 0) }
    ensures { counts.new ≡ degrees_from edges.now (max_run * k) (length counts.old) end }
{
    for b in MAX_RUN * k..end {
        count_row(edges, counts, k, b);
    }
}

// The degrees of the nodes of a strip among n nodes, from those among the nodes through the strip: a run of each row past it.
fn count_past(edges: &[u8], counts: &mut [u16], first: usize, n: usize)
    requires { Room n edges.now × (first ≤ n) × (length counts.old ≡ max_run) × (counts.old ≡ degrees_from edges.now first max_run (min n (first + max_run))) }
    ensures { counts.new ≡ degrees_from edges.now first max_run n }
{
    let end = first + MAX_RUN;
    for b in n.min(end)..n {
        count_run(edges, counts, first, b, first, end);
    }
}

// How many of the n nodes are linked to each node of strip k, the nodes from MAX_RUN * k on; 0 in the places past the n.
pub fn strip_of(edges: &[u8], n: usize, k: usize) -> [u16; MAX_RUN]
    requires { Room n edges.now × (max_run * k < n) }
    ensures { result ≡ degrees_from edges.now (max_run * k) max_run n }
{
    let first = MAX_RUN * k;
    let mut counts = [0u16; MAX_RUN];
    count_rows(edges, &mut counts, k, n.min(first + MAX_RUN));
    count_past(edges, &mut counts, first, n);
    counts
}

// How many of the n nodes are linked to each of them; 0 in the places past them.
// Not one function with `strip_of`: every node has a place here, and no row is left for `count_past`, which counts MAX_RUN nodes of each.
pub fn degrees_of(edges: &[u8], n: usize) -> [u16; MAX_NODES]
    requires { Room n edges.now }
    ensures { result ≡ degrees_of edges.now n }
{
    let mut counts = [0u16; MAX_NODES];
    count_rows(edges, &mut counts, 0, n);
    counts
}

// A degree with one edge more where `on`, and with one less elsewhere.
fn moved(degree: u16, on: bool) -> u16
    requires { (0 < degree + bit on) × (degree + bit on < 65536) }
    ensures { result ≡ moved on degree }
{
    if on { degree + 1 } else { degree - 1 }
}

// The degrees of a and b with one edge more where `on`, and with one less elsewhere.
pub fn shift(degrees: &mut [u16], a: usize, b: usize, on: bool)
    requires { Shiftable degrees.old a b on }
    ensures { degrees.new ≡ shifted degrees.old a b on }
{
    let first = moved(degrees[a], on);
    let second = moved(degrees[b], on);
    degrees[a] = first;
    degrees[b] = second;
}
