// The call that finds the next change of a schedule. The pairs are looked at in windows of their numbers: for each pair of a window a table holds how
// long it stays linked from the given minute on.
ghost use Rattle.std.specs.Prelude.{◌≡◌, ◌*◌, ◌+◌, ◌<◌, ◌≤◌, length};
ghost use Rattle.packed.specs.Pairs.{max_nodes};
ghost use Rattle.packed.specs.Inside.Search.{FirstFrom};
ghost use Rattle.packed.specs.Inside.Windows.{window};
ghost use Rattle.state.specs.Answers.{found};
ghost use Rattle.schedule.specs.Schedule.{record_count};
ghost use Rattle.schedule.specs.Change.{change_call, minutes, next_of, numbers_of};
ghost use Rattle.schedule.specs.Inside.Numbers.{differs_in};
ghost use Rattle.schedule.specs.Inside.Records.{Sound, Valid};
ghost use Rattle.schedule.specs.Inside.Until.{change_at, changed_to, changes_at, lengthened, lengthens, moved_to, pass_to, placed_of};

use crate::records::{Opening, check_form, check_records, count, nodes, opening_at};
use packed::edges::{number, row_start};
use packed::windows::WINDOW;
use state::refusal::Refusal;

// A minute is below this number.
const MINUTES: usize = 65536;

// What is looked at: the pairs of the window that begins with the number `start`, from `minute` on, up to a limit.
#[derive(Clone, Copy)]
struct Scope {
    start: usize,
    minute: u16,
    limit: usize,
}

impl Scope {
    // The place of a record's pair in the window. There is none where the pair is in another, or where the record has no minute after `minute` and before
    // the limit.
    fn place(self, r: Opening) -> Option<usize>
        requires { Sound max_nodes r }
        ensures { result ≡ placed_of self r }
    {
        if r.to <= self.minute || self.limit <= usize::from(r.from) {
            return None;
        }
        packed::windows::place(number(r.a, r.b), self.start)
    }

    // The first minute before the limit at which a pair of the window differs. Where none does it is the limit, and no `None`: the next window takes it as
    // its own limit either way. A pair's minute is known once a pass moves none.
    fn change(self, schedule: &[u8]) -> usize
        requires { Valid schedule.now × (self.minute < self.limit) × (self.limit ≤ minutes) }
        ensures { FirstFrom (differs_in schedule.now self.start (self.start + window) self.minute) (self.minute + 1) self.limit result }
    {
        let mut table = Table {
            scope: self,
            until: [0; WINDOW],
        };
        // The minute is filled in where the table lies: an array made of it would be copied there.
        table.until.fill(self.minute);
        while table.pass(schedule) {}
        table.first(schedule)
    }
}

// Up to which minute each pair of the window stays linked, as far as the records tell.
#[derive(Drop)]
struct Table {
    scope: Scope,
    until: [u16; WINDOW],
}

impl Table {
    // A record that is open at its pair's minute makes the pair last up to its `to`; whether it did.
    fn lengthen(&mut self, r: Opening) -> bool
        requires { Sound max_nodes r }
        ensures moves { result ≡ lengthens self.old.scope self.old.until r }
        ensures lasts { self.new.until ≡ lengthened self.old.scope self.old.until r }
        ensures same { self.new.scope ≡ self.old.scope }
    {
        let Some(k) = self.scope.place(r) else {
            return false;
        };
        let last = self.until[k];
        if last < r.from || r.to <= last {
            return false;
        }
        self.until[k] = r.to;
        true
    }

    // So for every record, in their order; whether one of them did.
    fn pass(&mut self, schedule: &[u8]) -> bool
        requires { Valid schedule.now }
        ensures moves { result ≡ moved_to schedule.now self.old.scope self.old.until (record_count schedule.now) }
        ensures lasts { self.new.until ≡ pass_to schedule.now self.old.scope self.old.until (record_count schedule.now) }
        ensures same { self.new.scope ≡ self.old.scope }
    {
        let mut moved = false;
        for i in 0..count(schedule) {
            moved |= self.lengthen(opening_at(schedule, i));
        }
        moved
    }

    // The minute at which a record's pair first differs, as far as the record tells: where the pair is linked at `minute`, that up to which it lasts, and
    // elsewhere the record's `from`. There is none where the record has no place in the window.
    fn changed_by(&self, r: Opening) -> Option<u16>
        requires { Sound max_nodes r }
        ensures { result ≡ changes_at self.now.scope self.now.until r }
    {
        let k = self.scope.place(r)?;
        let last = self.until[k];
        let minute = self.scope.minute;
        Some(if minute < last { last } else { r.from })
    }

    // The first of these minutes that is before the limit; the limit where none is, for the next window.
    fn first(&self, schedule: &[u8]) -> usize
        requires { Valid schedule.now }
        ensures { result ≡ changed_to schedule.now self.now.scope self.now.until (record_count schedule.now) }
    {
        let mut first = self.scope.limit;
        for i in 0..count(schedule) {
            if let Some(changed) = self.changed_by(opening_at(schedule, i)) {
                first = first.min(usize::from(changed));
            }
        }
        first
    }
}

// The first minute after `minute` at which any pair differs.
fn first_change(schedule: &[u8], minute: u16) -> Option<u16>
    requires { Valid schedule.now }
    ensures { result ≡ change_at schedule.now minute }
{
    let mut limit = MINUTES;
    for start in (0..row_start(nodes(schedule))).step_by(WINDOW) {
        let scope = Scope {
            start,
            minute,
            limit,
        };
        limit = scope.change(schedule);
    }
    u16::try_from(limit).ok()
}

// The first minute after `minute` at which any link differs from its state then.
pub fn next_change(schedule: &[u8], minute: u16) -> Result<Option<u16>, Refusal>
    ensures { (found result ≡ change_call schedule.now minute) × (numbers_of (found result) ≡ next_of schedule.now minute) }
{
    check_form(schedule)?;
    check_records(schedule)?;
    Ok(first_change(schedule, minute))
}
