// The call that scores one node.
ghost use Rattle.std.specs.Prelude.{◌≡◌};
ghost use Rattle.state.specs.Answers.{refusal_of, value_of};
ghost use Rattle.calls.specs.Score.{score_call, scored};

use ego::limits::LIMIT;
use ego::neighbours::neighbours_of;
use ego::score::score_of;
use state::refusal::Refusal;
use state::sizes::check_edges;

// The score of node p in grains, from the edges of n nodes. Nothing lent is written.
pub fn score(edges: &[u8], n: usize, p: usize) -> Result<u64, Refusal>
    ensures { scored (refusal_of result) (value_of result) ≡ score_call edges.now n p }
{
    check_edges(n, edges.len())?;
    if n <= p {
        return Err(Refusal::Node);
    }
    let near = neighbours_of(edges, n, p);
    if LIMIT < near.count {
        return Err(Refusal::CrowdedBefore);
    }
    Ok(score_of(edges, &near))
}
