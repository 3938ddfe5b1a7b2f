// For comparison with other programs only: the calls that the C interface leaves out, with figures as 64-bit numbers.
// Each is a function of its own that answers a refusal by its number, and takes its buffers one by one: that is what C can call.
#![tactic(auto)]

ghost use Rattle.std.specs.Prelude.{◌≡◌};
ghost use Rattle.merge.specs.Conflict.{conflict_call, numbers_of as conflict_numbers};
ghost use Rattle.merge.specs.Pinned.{pinned_call, brought};
ghost use Rattle.merge.specs.Reconcile.{reconcile_call};
ghost use Rattle.nearest.specs.Nearest.{answer_of as nearest_answer, numbers_of as nearest_numbers};
ghost use Rattle.preview.specs.Preview.{preview_add_call, previewed, preview_remove_call};
ghost use Rattle.schedule.specs.Change.{next_of, numbers_of};
ghost use Rattle.schedule.specs.Sheet.{load_at_call, write_at_call};
ghost use Rattle.survey.specs.Position.{answer_of, numbers_of as position_numbers};
ghost use Rattle.survey.specs.Sheet.{sheet_call};
ghost use Rattle.state.specs.Outcome.{left};
ghost use Rattle.state.specs.Answers.{refusal_of, one_number_of};
ghost use Rattle.calls.specs.Snapshot.{load_call, written, write_call};
ghost use Rattle.port.specs.Port.{as_one_change, as_one_conflict, as_one_nearest, as_one_record, port_entries, port_list, ported};
ghost use Rattle.state.specs.State.{state};

use calls::snapshot::{load, write};
use listing::records::list_entries;
use merge::brought::Brought;
use merge::conflict::first_conflict;
use merge::pinned::reconcile_pinned;
use merge::reconcile::reconcile;
use nearest::listed::nearest_listed;
use packed::edges::index;
use preview::preview::{preview_add, preview_remove};
use schedule::change::next_change;
use schedule::sheet::{load_at, write_at};
use state::refusal::{number_of, one_number};
use survey::position::latest_record;
use survey::sheet::write_latest;
use topk::entries::Entry;
use topk::list::list;

// Loads a sheet.
#[unsafe(no_mangle)]
pub extern "C" fn fj_port_load(
    links: &mut [u8],
    figures: &mut [u64],
    marks: &mut [u8],
    sheet: &[u8],
) -> u64
    ensures { left result (state links.new figures.new marks.new) ≡ load_call (state links.old figures.old marks.old) sheet.now }
{
    number_of(load(links, figures, marks, sheet))
}

// Writes the sheet of a board.
#[unsafe(no_mangle)]
pub extern "C" fn fj_port_write(
    links: &[u8],
    figures: &[u64],
    marks: &[u8],
    sheet: &mut [u8],
) -> u64
    ensures { written result sheet.new ≡ write_call (state links.now figures.now marks.now) sheet.old }
{
    number_of(write(links, figures, marks, sheet))
}

// The list over plain numbers.
#[unsafe(no_mangle)]
pub extern "C" fn fj_port_list(
    links: &[u8],
    figures: &mut [u64],
    marks: &mut [u8],
    entries: &mut [u64],
    scratch: &mut [u8],
) -> u64
    ensures { ported result (state links.now figures.new marks.new) entries.new scratch.new ≡ port_list (state links.now figures.old marks.old) entries.old scratch.old }
{
    one_number(list(links, figures, marks, entries, scratch))
}

// The list over entries as records.
#[unsafe(no_mangle)]
pub extern "C" fn fj_port_list_entries(
    links: &[u8],
    figures: &mut [u64],
    marks: &mut [u8],
    entries: &mut [Entry],
    scratch: &mut [u8],
) -> u64
    ensures { ported result (state links.now figures.new marks.new) entries.new scratch.new ≡ port_entries (state links.now figures.old marks.old) entries.old scratch.old }
{
    one_number(list_entries(links, figures, marks, entries, scratch))
}

// Brings another editor's changes into a board.
#[unsafe(no_mangle)]
pub extern "C" fn fj_port_reconcile(
    links: &mut [u8],
    figures: &mut [u64],
    marks: &mut [u8],
    theirs: &[u8],
    original: &[u8],
) -> u64
    ensures { left result (state links.new figures.new marks.new) ≡ reconcile_call (state links.old figures.old marks.old) theirs.now original.now }
{
    number_of(reconcile(links, figures, marks, theirs, original))
}

// Brings another editor's changes into a board, where each editor may have confirmed pairs.
#[unsafe(no_mangle)]
pub extern "C" fn fj_port_reconcile_pinned(
    links: &mut [u8],
    figures: &mut [u64],
    marks: &mut [u8],
    pins: &[u8],
    theirs: &[u8],
    their_pins: &[u8],
    original: &[u8],
) -> u64
    ensures { left result (state links.new figures.new marks.new) ≡ pinned_call (state links.old figures.old marks.old) (brought pins.now theirs.now their_pins.now original.now) }
{
    let brought = Brought {
        pins,
        theirs,
        their_pins,
        base: original,
    };
    number_of(reconcile_pinned(links, figures, marks, brought))
}

// Stands for no conflict, where a bit would stand.
const NO_CONFLICT: u64 = 4294967296;

// The lowest pair on which both editors have spoken and which they left different.
#[unsafe(no_mangle)]
pub extern "C" fn fj_port_conflict(
    links: &[u8],
    n: u64,
    pins: &[u8],
    theirs: &[u8],
    their_pins: &[u8],
    original: &[u8],
) -> u64
    ensures { result ≡ as_one_conflict (conflict_numbers (conflict_call links.now n (brought pins.now theirs.now their_pins.now original.now))) }
{
    let brought = Brought {
        pins,
        theirs,
        their_pins,
        base: original,
    };
    match first_conflict(links, n as usize, brought) {
        Ok(Some(pair)) => index(pair.a, pair.b) as u64,
        Ok(None) => NO_CONFLICT,
        Err(refusal) => one_number(Err(refusal)),
    }
}

// Stands for no post, where a hop count and a post would stand.
const NO_POST: u64 = 4294967296;

// The listed post reachable over the fewest links, within a limit of hops.
#[unsafe(no_mangle)]
pub extern "C" fn fj_port_nearest(links: &[u8], n: u64, post: u64, listed: &[u64], hops: u8) -> u64
    ensures { result ≡ as_one_nearest (nearest_answer links.now n post listed.now hops) }
{
    match nearest_listed(links, n as usize, post as usize, listed, hops) {
        Ok(Some(near)) => near.hops as u64 * 65536 + near.node as u64,
        Ok(None) => NO_POST,
        Err(refusal) => one_number(Err(refusal)),
    }
}

// What adding a link would change, post by post.
#[unsafe(no_mangle)]
pub extern "C" fn fj_port_preview_add(
    links: &[u8],
    figures: &[u64],
    marks: &[u8],
    changes: &mut [i64],
    a: u64,
    b: u64,
) -> u64
    ensures { previewed result changes.new ≡ preview_add_call (state links.now figures.now marks.now) changes.old a b }
{
    number_of(preview_add(links, figures, marks, changes, a as usize, b as usize))
}

// What removing a link would change, post by post.
#[unsafe(no_mangle)]
pub extern "C" fn fj_port_preview_remove(
    links: &[u8],
    figures: &[u64],
    marks: &[u8],
    changes: &mut [i64],
    a: u64,
    b: u64,
) -> u64
    ensures { previewed result changes.new ≡ preview_remove_call (state links.now figures.now marks.now) changes.old a b }
{
    number_of(preview_remove(links, figures, marks, changes, a as usize, b as usize))
}

// Writes the sheet of a schedule at a minute.
#[unsafe(no_mangle)]
pub extern "C" fn fj_port_schedule_write(schedule: &[u8], minute: u16, sheet: &mut [u8]) -> u64
    ensures { written result sheet.new ≡ write_at_call schedule.now minute sheet.old }
{
    number_of(write_at(schedule, minute, sheet))
}

// Stands for no change, where a minute would stand.
const NO_CHANGE: u64 = 65536;

// The first minute after `minute` at which a link of a schedule differs.
#[unsafe(no_mangle)]
pub extern "C" fn fj_port_schedule_next(schedule: &[u8], minute: u16) -> u64
    ensures { result ≡ as_one_change (next_of schedule.now minute) }
{
    match next_change(schedule, minute) {
        Ok(Some(minute)) => minute as u64,
        Ok(None) => NO_CHANGE,
        Err(refusal) => one_number(Err(refusal)),
    }
}

// Loads the sheet of a schedule at a minute.
#[unsafe(no_mangle)]
pub extern "C" fn fj_port_schedule_load(
    links: &mut [u8],
    figures: &mut [u64],
    marks: &mut [u8],
    schedule: &[u8],
    minute: u16,
) -> u64
    ensures { left result (state links.new figures.new marks.new) ≡ load_at_call (state links.old figures.old marks.old) schedule.now minute }
{
    number_of(load_at(links, figures, marks, schedule, minute))
}

// Writes the sheet of a survey at a threshold.
#[unsafe(no_mangle)]
pub extern "C" fn fj_port_survey_write(
    survey: &[u8],
    n: u64,
    threshold: u64,
    sheet: &mut [u8],
) -> u64
    ensures { written result sheet.new ≡ sheet_call survey.now n threshold sheet.old }
{
    number_of(write_latest(survey, n as usize, threshold, sheet))
}

// Stands for no record, where a position would stand.
const NO_RECORD: u64 = 9223372036854775808;

// The position of the record of a survey that counts for a pair.
#[unsafe(no_mangle)]
pub extern "C" fn fj_port_survey_position(survey: &[u8], n: u64, a: u64, b: u64) -> u64
    ensures { result ≡ as_one_record (answer_of survey.now n a b) }
{
    match latest_record(survey, n as usize, a as usize, b as usize) {
        Ok(Some(position)) => position as u64,
        Ok(None) => NO_RECORD,
        Err(refusal) => one_number(Err(refusal)),
    }
}
