// Bits packed into a lent slice of bytes, the most significant bit of a byte first.
ghost use Rattle.std.specs.Prelude.{◌≡◌, ◌+◌, ◌-◌, ◌*◌, ◌/◌, ◌≤◌, ◌<◌, length};
ghost use Rattle.arith.specs.Digits.{bit_of};
ghost use Rattle.packed.specs.Bits.{bit_at, with_bit, differ};
ghost use Rattle.packed.specs.Inside.Search.{FirstFrom, FirstIn, other_word};

use crate::runs::{whole_at, word_at};

// Bit i.
pub fn get(bits: &[u8], i: usize) -> bool
    requires { i / 8 < length bits.now }
    ensures { result ≡ bit_at bits.now i }
{
    bits[i / 8] & (128u8 >> (i % 8)) != 0
}

// Sets bit i where `on`, and clears it elsewhere.
pub fn put(bits: &mut [u8], i: usize, on: bool)
    requires { i / 8 < length bits.old }
    ensures { bits.new ≡ with_bit bits.old i on }
{
    let mask = 128u8 >> (i % 8);
    if on {
        bits[i / 8] |= mask;
    } else {
        bits[i / 8] &= !mask;
    }
}

// The place of the first digit of a word that is set, from place `from` on, the highest first, and 64 where there is none.
// A number and no Option: 64 is what `leading_zeros` counts in 0, and callers compare the place with those that are left.
pub fn first_one(word: u64, from: usize) -> usize
    requires { from < 64 }
    ensures { FirstFrom (λ j. bit_of word (63 - j)) from 64 result }
{
    (word & (u64::MAX >> from)).leading_zeros() as usize
}

// How many words of eight bytes from byte `from` on are the same in both, of `count`, up to the first that is not.
pub fn same_words(x: &[u8], y: &[u8], from: usize, count: usize) -> usize
    requires { (from + 8 * count ≤ length x.now) × (from + 8 * count ≤ length y.now) }
    ensures { FirstFrom (other_word x.now y.now from) 0 count result }
{
    for m in 0..count {
        if whole_at(x, from + 8 * m) != whole_at(y, from + 8 * m) {
            return m;
        }
    }
    count
}

// The first bit from `from` on, of those before `to`, that is set in one of the two and not in the other.
pub fn next_differing(x: &[u8], y: &[u8], from: usize, to: usize) -> Option<usize>
    requires { (from ≤ to) × (to ≤ 8 * length x.now) × (to ≤ 8 * length y.now) }
    ensures { FirstIn (λ i. differ (bit_at x.now i) (bit_at y.now i)) from to result }
{
    let mut i = from;
    // No `for`: i jumps over words that are the same.
    while i < to {
        let place = i % 8;
        let found = first_one(word_at(x, i / 8) ^ word_at(y, i / 8), place);
        if to - i <= found - place {
            return None;
        }
        if found < 64 {
            return Some(i + (found - place));
        }
        let next = i / 8 + 8;
        i = 8 * (next + 8 * same_words(x, y, next, (to / 8 - next) / 8));
    }
    None
}
