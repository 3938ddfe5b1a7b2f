// The script reader: a record over the lent script with the next bit's position. Its functions are thin over `read_at`; `read` serves whoever
// has no reader.
ghost use Rattle.std.specs.Prelude.{◌≡◌};
ghost use Rattle.script.specs.Moves.{reader_after, start_of, yields};
ghost use Rattle.script.specs.Reading.{reading_at, reading_of};
ghost use Rattle.script.specs.Record.{read_at};

use crate::step::{FIRST_RECORD, Item, Step, read_at};

#[derive(Drop)]
pub struct Reader<'a> {
    pub script: &'a [u8],
    pub at: usize,
}

impl<'a> Reader<'a> {
    // A reader at the first record of a script.
    pub fn new(script: &'a [u8]) -> Reader<'a>
        ensures { result ≡ start_of script.entry }
    {
        Reader {
            script,
            at: FIRST_RECORD,
        }
    }

    // Yields a record and moves past it, or keeps its position at the end or at what is malformed.
    pub fn next(&mut self) -> Item
        ensures { (result ≡ yields self.old) × (self.new ≡ reader_after self.old)
            × (reading_of result self.new.at ≡ reading_at self.old.script.now self.old.at) }
    {
        let step = read_at(self.script, self.at);
        self.at = step.at;
        step.item
    }
}

// What a reader at position `at` yields, and the position that it is left at.
pub fn read(script: &[u8], at: usize) -> Step
    ensures { (result ≡ read_at script.now at) × (reading_of result.item result.at ≡ reading_at script.now at) }
{
    let mut reader = Reader { script, at };
    let item = reader.next();
    Step {
        item,
        at: reader.at,
    }
}
