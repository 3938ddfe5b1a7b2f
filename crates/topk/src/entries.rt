// The kept entries in their buffer, best first: entry i has its node at 2i and its figure at 2i + 1.
// The buffer is lent for k entries, of which `kept` are there: a slice of these alone could not take one more.
ghost use Rattle.std.specs.Prelude.{◌≡◌, ◌+◌, ◌*◌, ◌<◌, ◌≤◌, min, length, set};
ghost use Rattle.topk.specs.Entries.{keep, ranks_before, stops, entries_of};
ghost use Rattle.topk.specs.Inside.Layout.{place, entry_in, entry_put_in, Kept, Ordered};

// A node and its figure.
#[repr(C)]
#[derive(Clone, Copy)]
pub struct Entry {
    pub node: u64,
    pub figure: u64,
}

impl Entry {
    // Whether it ranks before another: its figure is larger, or equal and its node's number lower.
    pub(crate) fn ranks_before(self, other: Entry) -> bool
        ensures { result ≡ ranks_before self other }
    {
        // One test after the other: by a comparison of two tuples a list takes a tenth longer.
        if other.figure < self.figure {
            return true;
        }
        if other.figure == self.figure {
            return self.node < other.node;
        }
        false
    }
}

// Entry i of numbers that have entries in a row.
pub fn entry_at(numbers: &[u64], i: usize) -> Entry
    requires { 2 * i + 1 < length numbers.now }
    ensures { result ≡ entry_in numbers.now i }
{
    Entry {
        node: numbers[2 * i],
        figure: numbers[2 * i + 1],
    }
}

fn put_entry(entries: &mut [u64], i: usize, e: Entry)
    requires { 2 * i + 1 < length entries.old }
    ensures { entries.new ≡ set (set entries.old (2 * i) e.node) (2 * i + 1) e.figure }
{
    entries[2 * i] = e.node;
    entries[2 * i + 1] = e.figure;
}

// How many of the kept entries, which are in order, stand before the place of another.
fn place_of(entries: &[u64], kept: usize, e: Entry) -> usize
    requires { (2 * kept ≤ length entries.now) × Ordered (entries_of kept entries.now) }
    ensures { result ≡ place e (entries_of kept entries.now) }
{
    let (rows, _) = entries.as_chunks::<2>();
    rows[..kept].partition_point(|row| !e.ranks_before(entry_at(row, 0)))
}

// Puts an entry in at a place, and lets the last of k fall off the end. Where the place is past k nothing is written.
fn shift_in(entries: &mut [u64], kept: usize, k: usize, spot: usize, e: Entry) -> usize
    requires { (2 * k ≤ length entries.old) × (kept ≤ k) × (spot ≤ kept) }
    ensures { (result ≡ min (kept + 1) k) × (entries.new ≡ entry_put_in entries.old spot e result) }
{
    if spot == k {
        return kept;
    }
    let after = k.min(kept + 1);
    entries.copy_within(2 * spot..2 * after - 2, 2 * spot + 2);
    put_entry(entries, spot, e);
    after
}

// Puts an entry among the kept ones, which are in order and at most k, and returns how many there are then.
pub(crate) fn insert(entries: &mut [u64], kept: usize, k: usize, e: Entry) -> usize
    requires { (2 * k ≤ length entries.old) × (kept ≤ k) × Ordered (entries_of kept entries.old) }
    ensures { Kept (keep k e (entries_of kept entries.old)) entries.old entries.new result }
{
    let spot = place_of(entries, kept, e);
    shift_in(entries, kept, k, spot, e)
}

// Whether k entries are kept, and another ranks after the last of them.
pub(crate) fn stops_at(entries: &[u64], kept: usize, k: usize, e: Entry) -> bool
    requires { (2 * k ≤ length entries.now) × (kept ≤ k) × (0 < k) }
    ensures { result ≡ stops k e (entries_of kept entries.now) }
{
    kept == k && entry_at(entries, kept - 1).ranks_before(e)
}
