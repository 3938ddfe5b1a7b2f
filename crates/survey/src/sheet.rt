// The call that writes the snapshot of a survey. The pairs are looked at in windows of their numbers: for each pair of a window a table holds the highest
// survey number so far.
ghost use Rattle.std.specs.Prelude.{cond, ◌∷◌, ◌≡◌, ◌+◌, ◌-◌, ◌<◌, suc, leb, length, replicate, set};
ghost use Rattle.packed.specs.Bits.{bytes_of, with_bit};
ghost use Rattle.packed.specs.Inside.Windows.{place_in, window};
ghost use Rattle.packed.specs.Pairs.{max_nodes};
ghost use Rattle.state.specs.Answers.{refusal_of};
ghost use Rattle.state.specs.Inside.Earlier.{TwoNodes};
ghost use Rattle.state.specs.Inside.MaxSizes.{max_edge_bytes};
ghost use Rattle.calls.specs.Snapshot.{written};
ghost use Rattle.survey.specs.Sheet.{sheet_call};
ghost use Rattle.survey.specs.Inside.Walk.{decides, linked_no, number_of, pass_edges, Valid};

use crate::records::{Measurement, check_form, check_records, count, measurement_at};
use calls::made::{MAX_SNAPSHOT, write_made};
use packed::bits::put;
use packed::edges::{number, row_start};
use packed::windows::{WINDOW, place};
use state::refusal::Refusal;
use state::sizes::{check_count, edge_bytes};

// The pairs of the window that begins with the number `start`, and for each of them the highest survey number so far.
#[derive(Drop)]
struct Table {
    start: usize,
    latest: [u16; WINDOW],
}

impl Table {
    // A record of a pair of the window decides the pair's link, unless one before it has a higher number.
    fn decide(&mut self, edges: &mut [u8], r: Measurement, threshold: u64)
        requires { TwoNodes max_nodes r.a r.b × (length edges.old ≡ max_edge_bytes) }
        ensures links { edges.new ≡ cond (decides self.old.start self.old.latest r) (with_bit edges.old (number_of r) (leb threshold r.strength)) edges.old }
        ensures numbers { self.new.latest
            ≡ cond (decides self.old.start self.old.latest r) (set self.old.latest (place_in self.old.start (number_of r)) r.number) self.old.latest }
        ensures pairs { self.new.start ≡ self.old.start }
    {
        let p = number(r.a, r.b);
        let Some(k) = place(p, self.start) else {
            return;
        };
        if r.number < self.latest[k] {
            return;
        }
        self.latest[k] = r.number;
        put(edges, p, threshold <= u64::from(r.strength));
    }
}

// So for every record, in their order.
fn pass(edges: &mut [u8], survey: &[u8], start: usize, threshold: u64)
    requires { Valid survey.now max_nodes × (edges.old ≡ pass_edges survey.now threshold start 0) }
    ensures { edges.new ≡ pass_edges survey.now threshold (start + window) 0 }
{
    let mut table = Table {
        start,
        latest: [0; WINDOW],
    };
    for i in 0..count(survey) {
        table.decide(edges, measurement_at(survey, i), threshold);
    }
}

// So for the pairs of every window.
fn link_all(edges: &mut [u8], survey: &[u8], n: usize, threshold: u64)
    requires { Valid survey.now n × (edges.old ≡ replicate max_edge_bytes 0) }
    ensures { edges.new ≡ bytes_of (linked_no survey.now threshold) max_edge_bytes }
{
    for start in (0..row_start(n)).step_by(WINDOW) {
        pass(edges, survey, start, threshold);
    }
}

// Makes the snapshot out of zeros, and leaves those past it. That of a schedule is made of other links, and has the first byte alone in common.
fn make(snapshot: &mut [u8], survey: &[u8], n: usize, threshold: u64)
    requires { Valid survey.now n × (0 < n) × (snapshot.old ≡ replicate (suc max_edge_bytes) 0) }
    ensures { snapshot.new ≡ (n - 1) ∷ bytes_of (linked_no survey.now threshold) max_edge_bytes }
{
    snapshot[0] = (n - 1) as u8;
    link_all(&mut snapshot[1..], survey, n, threshold);
}

// Writes the snapshot of a survey at a threshold to a buffer of exactly its length.
pub fn write_latest(
    survey: &[u8],
    n: usize,
    threshold: u64,
    snapshot: &mut [u8],
) -> Result<(), Refusal>
    ensures { written (refusal_of result) snapshot.new ≡ sheet_call survey.now n threshold snapshot.old }
{
    check_count(n)?;
    if snapshot.len() != 1 + edge_bytes(n) {
        return Err(Refusal::Length);
    }
    check_form(survey)?;
    check_records(survey, n)?;
    let mut made = [0u8; MAX_SNAPSHOT];
    make(&mut made, survey, n, threshold);
    write_made(snapshot, &made, n)
}
