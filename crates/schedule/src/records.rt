// The records of a schedule, and the refusals of those that are not sound.
ghost use Rattle.std.specs.Prelude.{◌≡◌, [], ◌∷◌, ◌<◌, length};
ghost use Rattle.state.specs.Answers.{refusal_of};
ghost use Rattle.state.specs.Refusal.{refusal};
ghost use Rattle.schedule.specs.Schedule.{bad_schedule, opening_at, record_conditions, record_count, schedule_nodes};
ghost use Rattle.schedule.specs.Inside.Records.{opening_conditions};

use state::refusal::{Refusal, check_pair, earlier};

// The bytes of a record.
const RECORD_BYTES: usize = 6;

// A record: the edge of a and b exists from minute `from` on, up to minute `to`.
#[derive(Clone, Copy)]
pub struct Opening {
    pub a: usize,
    pub b: usize,
    pub from: u16,
    pub to: u16,
}

// Refusal 9: the schedule is empty, or is not its first byte and whole records.
pub(crate) fn check_form(schedule: &[u8]) -> Result<(), Refusal>
    ensures { refusal_of result ≡ refusal (bad_schedule schedule.now ∷ []) }
{
    if schedule.is_empty() || (schedule.len() - 1) % RECORD_BYTES != 0 {
        return Err(Refusal::Malformed);
    }
    Ok(())
}

// The number of nodes.
pub(crate) fn nodes(schedule: &[u8]) -> usize
    requires { 0 < length schedule.now }
    ensures { result ≡ schedule_nodes schedule.now }
{
    usize::from(schedule[0]) + 1
}

// The number of records.
pub(crate) fn count(schedule: &[u8]) -> usize
    requires { 0 < length schedule.now }
    ensures { result ≡ record_count schedule.now }
{
    (schedule.len() - 1) / RECORD_BYTES
}

// Record i.
// By its number: that is how a record counts, and what the laws of a file speak of; chunks of the file would have to be told their numbers again.
pub(crate) fn opening_at(schedule: &[u8], i: usize) -> Opening
    requires { i < record_count schedule.now }
    ensures { result ≡ opening_at schedule.now i }
{
    let at = 1 + RECORD_BYTES * i;
    Opening {
        a: usize::from(schedule[at]),
        b: usize::from(schedule[at + 1]),
        from: u16::from_be_bytes([schedule[at + 2], schedule[at + 3]]),
        to: u16::from_be_bytes([schedule[at + 4], schedule[at + 5]]),
    }
}

// The first of refusals 4, 5 and 13 that a record gives.
fn fault(r: Opening, n: usize) -> Result<(), Refusal>
    ensures { refusal_of result ≡ refusal (opening_conditions n r) }
{
    check_pair(n, r.a, r.b)?;
    if r.to <= r.from {
        return Err(Refusal::NoHours);
    }
    Ok(())
}

// Refusals 4, 5 and 13, each over all records.
pub(crate) fn check_records(schedule: &[u8]) -> Result<(), Refusal>
    requires { 0 < length schedule.now }
    ensures { refusal_of result ≡ refusal (record_conditions schedule.now) }
{
    let n = nodes(schedule);
    let mut first = Ok(());
    for i in 0..count(schedule) {
        // Most records pass, and leave the refusal as it is.
        if let Err(refusal) = fault(opening_at(schedule, i), n) {
            first = earlier(first, Err(refusal));
        }
    }
    first
}
