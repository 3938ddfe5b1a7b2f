// What stands at a bit's position of a script. The slice is the whole script with its first byte, which is n - 1, and a position counts the bits
// from the start of the slice, so that the first record is at FIRST_RECORD.
ghost use Rattle.std.specs.Prelude.{◌≡◌, ◌<◌, ◌≤◌, ◌^◌};
ghost use Rattle.script.specs.Limits.{record_bits};
ghost use Rattle.script.specs.Reading.{reading_at, reading_of};
ghost use Rattle.script.specs.Record.{bits_left, ends_at, item_at, past_item, read_at};

use packed::runs::{field, run_of};

// The most bytes of a script.
pub const MAX_BYTES: usize = 65536;

// The position of the first record.
pub const FIRST_RECORD: usize = 8;

// The bits of a record: its kind (2), a (8) and b (8).
pub const RECORD_BITS: usize = 18;

// A record of a script.
#[derive(Clone, Copy, Debug, PartialEq, Eq)]
pub enum Record {
    // Links a and b.
    Add { a: usize, b: usize },
    // Takes the edge of a and b away.
    Remove { a: usize, b: usize },
    // Lists the first k nodes.
    ListFirst { k: usize },
}

// Refusal 9: what stands there is neither a record nor the end.
#[derive(Clone, Copy, Debug, PartialEq, Eq)]
pub struct Malformed;

// What the reader yields: a record, or none at the end.
pub type Item = Result<Option<Record>, Malformed>;

// What the reader yields, and the position that it is left at.
#[derive(Clone, Copy, Debug, PartialEq, Eq)]
pub struct Step {
    pub item: Item,
    pub at: usize,
}

// The bits from a position to the end of a script; none of one that is too long.
fn bits_left(script: &[u8], at: usize) -> usize
    ensures { result ≡ bits_left script.now at }
{
    if MAX_BYTES < script.len() {
        return 0;
    }
    (8 * script.len()).saturating_sub(at)
}

// Whether a record of kind 0 ends the script: fewer than 8 bits follow, and its a and b and these are all 0.
fn ends_script(script: &[u8], at: usize, left: usize) -> bool
    requires { (left ≡ bits_left script.now at) × (record_bits ≤ left) }
    ensures { result ≡ ends_at script.now at }
{
    left - RECORD_BITS < 8 && run_of(script, at + 2, left - 2) == 0
}

// What stands at position `at`.
fn item_at(script: &[u8], at: usize) -> Item
    ensures { result ≡ item_at script.now at }
{
    let left = bits_left(script, at);
    if left < RECORD_BITS {
        return Err(Malformed);
    }
    let record = run_of(script, at, RECORD_BITS);
    let a = field(record, 8, 8) as usize;
    let b = field(record, 0, 8) as usize;
    match field(record, 16, 2) {
        1 => Ok(Some(Record::Add { a, b })),
        2 => Ok(Some(Record::Remove { a, b })),
        3 if b == 0 => Ok(Some(Record::ListFirst { k: a + 1 })),
        0 if ends_script(script, at, left) => Ok(None),
        _ => Err(Malformed),
    }
}

// The position past a record at `at`; the end and what is malformed keep it.
fn past(item: Item, at: usize) -> usize
    requires { past_item item at < 2 ^ 64 }
    ensures { result ≡ past_item item at }
{
    match item {
        Ok(Some(_)) => at + RECORD_BITS,
        Ok(None) => at,
        Err(Malformed) => at,
    }
}

// What a reader at position `at` yields, and the position that it is left at.
pub(crate) fn read_at(script: &[u8], at: usize) -> Step
    ensures value { result ≡ read_at script.now at }
    ensures numbers { reading_of result.item result.at ≡ reading_at script.now at }
{
    let item = item_at(script, at);
    let next = past(item, at);
    Step { item, at: next }
}
