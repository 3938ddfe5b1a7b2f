// The marks of a state's nodes. Nothing else reads or writes their bits.
ghost use Rattle.std.specs.Prelude.{◌≡◌, ◌+◌, ◌-◌, ◌≤◌, ltb, length, replicate};
ghost use Rattle.arith.specs.Sums.{pack_to};
ghost use Rattle.state.specs.Marks.{stale, with_mark, mark_bytes, all_stale};

// Whether node p is stale.
pub fn is_stale(marks: &[u8], p: usize) -> bool
    requires { mark_bytes (p + 1) ≤ length marks.now }
    ensures { result ≡ stale marks.now p }
{
    packed::bits::get(marks, p)
}

// Marks node p stale where `on`, and exact elsewhere.
pub fn set_mark(marks: &mut [u8], p: usize, on: bool)
    requires { mark_bytes (p + 1) ≤ length marks.old }
    ensures { marks.new ≡ with_mark marks.old p on }
{
    packed::bits::put(marks, p, on);
}

// Marks every node exact; spare bits are 0.
pub fn set_exact(marks: &mut [u8])
    ensures { marks.new ≡ replicate (length marks.old) 0 }
{
    marks.fill(0);
}

// Marks n nodes stale; spare bits are 0.
pub fn set_stale(marks: &mut [u8], n: usize)
    requires { length marks.old ≡ mark_bytes n }
    ensures { marks.new ≡ all_stale n }
{
    marks.fill(255);
    if n % 8 != 0 {
        marks[n / 8] = !(255u8 >> (n % 8));
    }
}
