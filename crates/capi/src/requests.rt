// The calls that write the state, on figures that are bytes: only the figures that a call changes are written.
ghost use Rattle.std.specs.Prelude.{◌≡◌, length};
ghost use Rattle.state.specs.Answers.{refusal_of};
ghost use Rattle.state.specs.Outcome.{left};
ghost use Rattle.state.specs.Refusal.{refusal};
ghost use Rattle.state.specs.State.{state};
ghost use Rattle.edits.specs.Inside.Change.{edit_call};
ghost use Rattle.capi.specs.Calls.{called, fj_clear, lent_lengths};

use crate::figures::renew_bytes;
use edits::edit::edit;
use state::marks::set_exact;
use state::refusal::Refusal;
use state::sizes::check_state;

// Refusals 1 and 2 of n nodes and the lengths of what is lent.
fn check_lengths(n: u64, links: usize, figures: usize, marks: usize) -> Result<(), Refusal>
    ensures { refusal_of result ≡ refusal (lent_lengths n links figures marks) }
{
    let nodes = n as usize;
    check_state(nodes, links, marks)?;
    if figures != 8 * nodes {
        return Err(Refusal::Length);
    }
    Ok(())
}

// No links, all figures 0, all settled.
pub(crate) fn clear_bytes(
    n: u64,
    links: &mut [u8],
    figures: &mut [u8],
    marks: &mut [u8],
) -> Result<(), Refusal>
    ensures { left (refusal_of result) (state links.new figures.new marks.new) ≡ fj_clear n (state links.old figures.old marks.old) }
{
    check_lengths(n, links.len(), figures.len(), marks.len())?;
    links.fill(0);
    figures.fill(0);
    set_exact(marks);
    Ok(())
}

// An add, where `on`, or a removal.
pub(crate) fn edit_bytes(
    n: u64,
    links: &mut [u8],
    figures: &mut [u8],
    marks: &mut [u8],
    a: u64,
    b: u64,
    on: bool,
) -> Result<(), Refusal>
    ensures { left (refusal_of result) (state links.new figures.new marks.new) ≡ called (λ s. edit_call s a b on) n (state links.old figures.old marks.old) }
{
    check_lengths(n, links.len(), figures.len(), marks.len())?;
    let renewal = edit(links, marks, n as usize, a as usize, b as usize, on)?;
    renew_bytes(figures, &renewal);
    Ok(())
}
