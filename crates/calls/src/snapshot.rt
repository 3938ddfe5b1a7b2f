// The calls that load a snapshot and write one.
ghost use Rattle.std.specs.Prelude.{◌≡◌, suc, ◌*◌, ◌/◌, ◌^◌, ◌≤◌, ◌<◌, length};
ghost use Rattle.arith.specs.Sums.{tabulate};
ghost use Rattle.packed.specs.Pairs.{max_nodes};
ghost use Rattle.state.specs.Answers.{refusal_of};
ghost use Rattle.state.specs.Sizes.{edge_bytes};
ghost use Rattle.state.specs.Refusal.{refusal, spare_set};
ghost use Rattle.state.specs.Outcome.{left};
ghost use Rattle.calls.specs.Snapshot.{form_conditions, load_call, snapshot_byte, written, write_call};
ghost use Rattle.state.specs.State.{state};

use packed::edges::row_start;
use packed::runs::run_of;
use state::crowded::any_over;
use state::figures::set_bounds;
use state::marks::set_stale;
use state::refusal::Refusal;
use state::sizes::{check_state, edge_bytes};

// Whether a bit past the pairs of n nodes is set.
fn spare_set(edges: &[u8], n: usize) -> bool
    requires { (n ≤ max_nodes) × (length edges.now ≡ edge_bytes n) }
    ensures { result ≡ spare_set n edges.now }
{
    let start = row_start(n);
    let spare = 8 * edges.len() - start;
    spare != 0 && run_of(edges, start, spare) != 0
}

// Refusals 9 and 10: the snapshot's form, and its number of nodes.
fn check_form(n: usize, snapshot: &[u8]) -> Result<(), Refusal>
    ensures { refusal_of result ≡ refusal (form_conditions n snapshot.now) }
{
    if snapshot.is_empty() {
        return Err(Refusal::Malformed);
    }
    let nodes = snapshot[0] as usize + 1;
    if snapshot.len() != 1 + edge_bytes(nodes) || spare_set(&snapshot[1..], nodes) {
        return Err(Refusal::Malformed);
    }
    if nodes != n {
        return Err(Refusal::OtherCount);
    }
    Ok(())
}

// Copies bytes to a slice of their length. No `copy_from_slice`: it calls `memmove`, which the archives for C would need from outside.
pub fn copy(to: &mut [u8], from: &[u8])
    requires { length to.old ≡ length from.now }
    ensures { to.new ≡ from.now }
{
    for (i, byte) in to.iter_mut().enumerate() {
        *byte = from[i];
    }
}

// Takes the edges of a snapshot; every node takes its bound and becomes stale.
pub fn load(
    edges: &mut [u8],
    figures: &mut [u64],
    marks: &mut [u8],
    snapshot: &[u8],
) -> Result<(), Refusal>
    ensures { left (refusal_of result) (state edges.new figures.new marks.new) ≡ load_call (state edges.old figures.old marks.old) snapshot.now }
{
    let n = figures.len();
    check_state(n, edges.len(), marks.len())?;
    check_form(n, snapshot)?;
    if any_over(&snapshot[1..], n) {
        return Err(Refusal::CrowdedAfter);
    }
    copy(edges, &snapshot[1..]);
    set_bounds(edges, figures);
    set_stale(marks, n);
    Ok(())
}

// A byte without its lowest bits.
fn trimmed(x: u8, spare: usize) -> u8
    requires { spare < 8 }
    ensures { result ≡ x / 2 ^ spare * 2 ^ spare }
{
    (x >> spare) << spare
}

// Copies the edges of n nodes without the bits past their pairs, all of which are in the last byte.
fn copy_pairs(to: &mut [u8], edges: &[u8], n: usize)
    requires { (n ≤ max_nodes) × (length edges.now ≡ edge_bytes n) × (length to.old ≡ edge_bytes n) }
    ensures { to.new ≡ tabulate (λ k. snapshot_byte edges.now n (suc k)) (edge_bytes n) }
{
    copy(to, edges);
    let spare = 8 * edges.len() - row_start(n);
    if spare != 0 {
        let last = edges.len() - 1;
        to[last] = trimmed(edges[last], spare);
    }
}

// Writes the snapshot of a state to a buffer of exactly its length.
pub fn write(
    edges: &[u8],
    figures: &[u64],
    marks: &[u8],
    snapshot: &mut [u8],
) -> Result<(), Refusal>
    ensures { written (refusal_of result) snapshot.new ≡ write_call (state edges.now figures.now marks.now) snapshot.old }
{
    let n = figures.len();
    check_state(n, edges.len(), marks.len())?;
    if snapshot.len() != 1 + edge_bytes(n) {
        return Err(Refusal::Length);
    }
    if any_over(edges, n) {
        return Err(Refusal::CrowdedBefore);
    }
    snapshot[0] = (n - 1) as u8;
    copy_pairs(&mut snapshot[1..], edges, n);
    Ok(())
}
