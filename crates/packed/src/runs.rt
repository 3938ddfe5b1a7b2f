// Runs of bits as numbers, the first bit the highest.
ghost use Rattle.std.specs.Prelude.{◌≡◌, ◌+◌, ◌*◌, ◌/◌, ◌%◌, ◌^◌, ◌≤◌, ◌<◌, length};
ghost use Rattle.packed.specs.Bits.{run_of};
ghost use Rattle.packed.specs.Inside.Runs.{max_run};

// The most bits that a run may have: they are within eight bytes wherever they begin.
pub const MAX_RUN: usize = 56;

// The 64 bits from byte k on, which are all there.
pub(crate) fn whole_at(bits: &[u8], k: usize) -> u64
    requires { k + 8 ≤ length bits.now }
    ensures { result ≡ run_of bits.now (8 * k) 64 }
{
    u64::from_be_bytes(bits[k..k + 8].try_into().unwrap())
}

// The bits of byte k, and zeros past the end.
fn byte_at(bits: &[u8], k: usize) -> u64
    ensures { result ≡ run_of bits.now (8 * k) 8 }
{
    if k < bits.len() { bits[k] as u64 } else { 0 }
}

// The 64 bits from byte k on, one of the last, and zeros past the end.
// Byte by byte: a copy of as many bytes as there are is a call, which takes a search for the nearest post of 16 a tenth longer.
fn last_at(bits: &[u8], k: usize) -> u64
    requires { k ≤ length bits.now }
    ensures { result ≡ run_of bits.now (8 * k) 64 }
{
    let mut word: u64 = 0;
    for m in 0..8 {
        word = word << 8 | byte_at(bits, k + m);
    }
    word
}

// The 64 bits from byte k on, and zeros past the end.
pub fn word_at(bits: &[u8], k: usize) -> u64
    requires { k ≤ length bits.now }
    ensures { result ≡ run_of bits.now (8 * k) 64 }
{
    if bits.len() - k < 8 {
        last_at(bits, k)
    } else {
        whole_at(bits, k)
    }
}

// The `count` bits of a run that are before its last `after`: so a field of a packed record, whose bits are a run.
pub fn field(run: u64, after: usize, count: usize) -> u64
    requires { (after < 64) × (count < 64) }
    ensures { result ≡ run / 2 ^ after % 2 ^ count }
{
    (run >> after) % (1u64 << count)
}

// The number of the `count` bits from `from` on.
pub fn run_of(bits: &[u8], from: usize, count: usize) -> u64
    requires { (0 < count) × (count ≤ max_run) × (from + count ≤ 8 * length bits.now) }
    ensures { result ≡ run_of bits.now from count }
{
    field(word_at(bits, from / 8), 64 - from % 8 - count, count)
}
