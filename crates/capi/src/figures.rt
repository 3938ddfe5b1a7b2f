// Figures as C lends them: 8 bytes a figure, least significant byte first.
ghost use Rattle.std.specs.Prelude.{◌≡◌, ◌+◌, ◌*◌, ◌≤◌, ◌++◌, drop, length, take};
ghost use Rattle.std.specs.Int.{to_le_bytes, w64};
ghost use Rattle.edits.specs.Inside.Renewal.{Renewable, renewed_by};
ghost use Rattle.capi.specs.Figures.{decoded, encoded, figure_at};
ghost use Rattle.capi.specs.Inside.Writing.{figure_count};

use edits::renewal::{Renewal, figure_by};

// The figure of node p.
fn figure_at(bytes: &[u8], p: usize) -> u64
    requires { 8 * p + 8 ≤ length bytes.now }
    ensures { result ≡ figure_at bytes.now p }
{
    let (figures, _) = bytes.as_chunks();
    u64::from_le_bytes(figures[p])
}

// Writes the figure of node p.
fn set_figure(bytes: &mut [u8], p: usize, x: u64)
    requires { 8 * p + 8 ≤ length bytes.old }
    ensures { bytes.new ≡ take (8 * p) bytes.old ++ (to_le_bytes w64 x ++ drop (8 * p + 8) bytes.old) }
{
    bytes[8 * p..8 * p + 8].copy_from_slice(&x.to_le_bytes());
}

// The nodes of a renewal are renewed.
// This is `edits::renewal::renew` on bytes: one loop for both would borrow them by `as_chunks_mut`, and no contract says what these bytes end as.
pub(crate) fn renew_bytes(bytes: &mut [u8], by: &Renewal)
    requires { (length bytes.old ≡ 8 * figure_count bytes.old) × Renewable by.now (figure_count bytes.old) }
    ensures { bytes.new ≡ encoded (renewed_by by.now (decoded (figure_count bytes.old) bytes.old)) }
{
    for (i, &p) in by.touching.nodes[..by.touching.count].iter().enumerate() {
        let p = p as usize;
        let figure = figure_by(figure_at(bytes, p), by.bounds[i], i < by.taken);
        set_figure(bytes, p, figure);
    }
}
