// The call that clears a state.
ghost use Rattle.std.specs.Prelude.{◌≡◌};
ghost use Rattle.state.specs.Answers.{refusal_of};
ghost use Rattle.state.specs.Outcome.{left};
ghost use Rattle.calls.specs.Clear.{clear_call};
ghost use Rattle.state.specs.State.{state};

use state::marks;
use state::refusal::Refusal;
use state::sizes::check_state;

// No edges, all figures 0, all exact. The number of nodes is that of the figures.
pub fn clear(edges: &mut [u8], figures: &mut [u64], marks: &mut [u8]) -> Result<(), Refusal>
    ensures { left (refusal_of result) (state edges.new figures.new marks.new) ≡ clear_call (state edges.old figures.old marks.old) }
{
    check_state(figures.len(), edges.len(), marks.len())?;
    edges.fill(0);
    figures.fill(0);
    marks::set_exact(marks);
    Ok(())
}
