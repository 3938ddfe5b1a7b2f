// Windows of pairs: so many pairs, numbered one after the other, for which a call holds a number each.
ghost use Rattle.std.specs.Prelude.{◌≡◌};
ghost use Rattle.packed.specs.Inside.Windows.{placed};

// The pairs of a window.
pub const WINDOW: usize = 8192;

// The place of the pair of number p in the window that begins with the number `start`, if the pair is in it.
pub fn place(p: usize, start: usize) -> Option<usize>
    ensures { result ≡ placed start p }
{
    p.checked_sub(start).filter(|k| *k < WINDOW)
}
