// The call that finds the record that counts for a pair.
ghost use Rattle.std.specs.Prelude.{◌&&◌, ◌≢◌, ◌≡◌, leb};
ghost use Rattle.packed.specs.Pairs.{max_nodes, same_pair};
ghost use Rattle.state.specs.Answers.{found};
ghost use Rattle.survey.specs.Survey.{is_for, record_count};
ghost use Rattle.survey.specs.Position.{answer_of, numbers_of, position_call};
ghost use Rattle.survey.specs.Inside.Walk.{last_to, position_at, Valid};

use crate::records::{Measurement, check_form, check_records, count, measurement_at};
use packed::edges::same_pair;
use state::refusal::{Refusal, check_pair, earlier};
use state::sizes::check_count;

// Whether a record is for the pair of a and b, and its survey number is no lower than the highest so far.
fn is_latest(r: Measurement, a: usize, b: usize, highest: u16) -> bool
    requires { r.a ≢ r.b }
    ensures { result ≡ same_pair r.a r.b a b && leb highest r.number }
{
    highest <= r.number && same_pair(r.a, r.b, a, b)
}

// The position of the record that counts for the pair, if the pair has one.
fn last_for(survey: &[u8], a: usize, b: usize) -> Option<usize>
    requires { Valid survey.now max_nodes }
    ensures { result ≡ position_at (last_to survey.now (is_for survey.now a b) (record_count survey.now)) }
{
    let mut last = None;
    let mut highest = 0;
    for i in 0..count(survey) {
        let r = measurement_at(survey, i);
        if is_latest(r, a, b, highest) {
            highest = r.number;
            last = Some(i);
        }
    }
    last
}

// The position of the record that counts for the pair of a and b; the file's first record is 0.
pub fn latest_record(survey: &[u8], n: usize, a: usize, b: usize) -> Result<Option<usize>, Refusal>
    ensures { (found result ≡ position_call survey.now n a b) × (numbers_of (found result) ≡ answer_of survey.now n a b) }
{
    check_count(n)?;
    check_form(survey)?;
    earlier(check_records(survey, n), check_pair(n, a, b))?;
    Ok(last_for(survey, a, b))
}
