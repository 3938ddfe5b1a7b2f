// What a reconcile brings besides the state, which is mine.
ghost use Rattle.std.specs.Prelude.{◌≡◌};

// Theirs and the original.
#[derive(Clone, Copy)]
pub(crate) struct Changes<'a> {
    pub(crate) theirs: &'a [u8],
    pub(crate) base: &'a [u8],
}

// My pins, theirs, their pins and the original: each has a bit for each pair, and 1 of a pin is confirmed.
#[derive(Clone, Copy)]
pub struct Brought<'a> {
    pub pins: &'a [u8],
    pub theirs: &'a [u8],
    pub their_pins: &'a [u8],
    pub base: &'a [u8],
}

impl<'a> Brought<'a> {
    // Theirs and the original of them.
    pub(crate) fn changes(self) -> Changes<'a>
        ensures { (result.theirs.now ≡ self.entry.theirs.now) × (result.base.now ≡ self.entry.base.now) }
    {
        Changes {
            theirs: self.theirs,
            base: self.base,
        }
    }
}
