// The records of a survey, and the refusals of those that are not sound.
ghost use Rattle.std.specs.Prelude.{◌≡◌, [], ◌∷◌, ◌<◌, length};
ghost use Rattle.state.specs.Answers.{refusal_of};
ghost use Rattle.state.specs.Refusal.{pair_conditions, part_record, refusal};
ghost use Rattle.survey.specs.Survey.{measurement_at, record_bytes, record_count, record_pairs};

use state::refusal::{Refusal, check_pair, earlier};

// The bytes of a record.
const RECORD_BYTES: usize = 5;

// A record: in the survey of this number the link of a and b had this strength.
#[derive(Clone, Copy)]
pub struct Measurement {
    pub a: usize,
    pub b: usize,
    pub number: u16,
    pub strength: u8,
}

// Refusal 14: the survey is not a whole number of records.
pub(crate) fn check_form(survey: &[u8]) -> Result<(), Refusal>
    ensures { refusal_of result ≡ refusal (part_record record_bytes (length survey.now) ∷ []) }
{
    if survey.len() % RECORD_BYTES != 0 {
        return Err(Refusal::PartRecord);
    }
    Ok(())
}

// The number of records.
pub(crate) fn count(survey: &[u8]) -> usize
    ensures { result ≡ record_count survey.now }
{
    survey.len() / RECORD_BYTES
}

// Record i.
// By its number: that is how a record counts, and what the laws of a file speak of; chunks of the file would have to be told their numbers again.
pub(crate) fn measurement_at(survey: &[u8], i: usize) -> Measurement
    requires { i < record_count survey.now }
    ensures { result ≡ measurement_at survey.now i }
{
    let at = RECORD_BYTES * i;
    Measurement {
        a: usize::from(survey[at]),
        b: usize::from(survey[at + 1]),
        number: u16::from_be_bytes([survey[at + 2], survey[at + 3]]),
        strength: survey[at + 4],
    }
}

// Refusals 4 and 5, each over all records. The records of a schedule have other fields and one refusal more: the two loops share `earlier` alone.
pub(crate) fn check_records(survey: &[u8], n: usize) -> Result<(), Refusal>
    ensures { refusal_of result ≡ refusal (pair_conditions n (record_pairs survey.now)) }
{
    let mut first = Ok(());
    for i in 0..count(survey) {
        let r = measurement_at(survey, i);
        // Most records pass, and leave the refusal as it is.
        if let Err(refusal) = check_pair(n, r.a, r.b) {
            first = earlier(first, Err(refusal));
        }
    }
    first
}
