// The calls that write and load the ordinary snapshot of a schedule at a minute.
ghost use Rattle.std.specs.Prelude.{cond, true, ◌∷◌, ◌≡◌, ◌-◌, suc, replicate};
ghost use Rattle.packed.specs.Bits.{bytes_of};
ghost use Rattle.packed.specs.Edges.{with_edge};
ghost use Rattle.packed.specs.Pairs.{max_nodes};
ghost use Rattle.packed.specs.Inside.Room.{Room};
ghost use Rattle.state.specs.Answers.{refusal_of};
ghost use Rattle.state.specs.Outcome.{left};
ghost use Rattle.state.specs.Inside.MaxSizes.{max_edge_bytes};
ghost use Rattle.calls.specs.Snapshot.{written};
ghost use Rattle.schedule.specs.Schedule.{open_at, schedule_nodes};
ghost use Rattle.schedule.specs.Sheet.{load_at_call, write_at_call};
ghost use Rattle.schedule.specs.Inside.Numbers.{linked_no};
ghost use Rattle.schedule.specs.Inside.Records.{Sound, Valid};
ghost use Rattle.state.specs.State.{state};

use crate::records::{Opening, check_form, check_records, count, nodes, opening_at};
use calls::made::{MAX_SNAPSHOT, write_made};
use calls::snapshot::load;
use packed::edges::link;
use state::refusal::Refusal;
use state::sizes::{check_state, edge_bytes};

// Links the two nodes of a record that is open at a minute.
fn link_open(edges: &mut [u8], r: Opening, minute: u16)
    requires { Sound max_nodes r × Room max_nodes edges.old }
    ensures { edges.new ≡ cond (open_at r minute) (with_edge edges.old r.a r.b true) edges.old }
{
    if r.from <= minute && minute < r.to {
        link(edges, r.a, r.b, true);
    }
}

// Links the nodes of every record that is open at a minute.
fn link_all(edges: &mut [u8], schedule: &[u8], minute: u16)
    requires { Valid schedule.now × (edges.old ≡ replicate max_edge_bytes 0) }
    ensures { edges.new ≡ bytes_of (linked_no schedule.now minute) max_edge_bytes }
{
    for i in 0..count(schedule) {
        link_open(edges, opening_at(schedule, i), minute);
    }
}

// Makes the snapshot at a minute out of zeros, and leaves those past it.
fn make_at(snapshot: &mut [u8], schedule: &[u8], minute: u16)
    requires { Valid schedule.now × (snapshot.old ≡ replicate (suc max_edge_bytes) 0) }
    ensures { snapshot.new ≡ (schedule_nodes schedule.now - 1) ∷ bytes_of (linked_no schedule.now minute) max_edge_bytes }
{
    snapshot[0] = schedule[0];
    link_all(&mut snapshot[1..], schedule, minute);
}

// Writes the snapshot of a schedule at a minute to a buffer of exactly its length.
pub fn write_at(schedule: &[u8], minute: u16, snapshot: &mut [u8]) -> Result<(), Refusal>
    ensures { written (refusal_of result) snapshot.new ≡ write_at_call schedule.now minute snapshot.old }
{
    check_form(schedule)?;
    let n = nodes(schedule);
    if snapshot.len() != 1 + edge_bytes(n) {
        return Err(Refusal::Length);
    }
    check_records(schedule)?;
    let mut made = [0u8; MAX_SNAPSHOT];
    make_at(&mut made, schedule, minute);
    write_made(snapshot, &made, n)
}

// Loads the snapshot of a schedule at a minute.
pub fn load_at(
    edges: &mut [u8],
    figures: &mut [u64],
    marks: &mut [u8],
    schedule: &[u8],
    minute: u16,
) -> Result<(), Refusal>
    ensures { left (refusal_of result) (state edges.new figures.new marks.new) ≡ load_at_call (state edges.old figures.old marks.old) schedule.now minute }
{
    check_form(schedule)?;
    check_state(figures.len(), edges.len(), marks.len())?;
    check_records(schedule)?;
    let mut made = [0u8; MAX_SNAPSHOT];
    make_at(&mut made, schedule, minute);
    let size = 1 + edge_bytes(nodes(schedule));
    load(edges, figures, marks, &made[..size])
}
