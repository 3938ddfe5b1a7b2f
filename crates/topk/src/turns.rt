// The list's turns: each takes one node, or finds that the list is done.
ghost use Rattle.std.specs.Prelude.{◌≡◌, length, replicate};
ghost use Rattle.state.specs.Sizes.{scratch_bytes};
ghost use Rattle.state.specs.State.{state};
ghost use Rattle.topk.specs.Inside.Turns.{ListFits, TurnFits, Turned, truth_of, progress_of, Leaves};
ghost use Rattle.topk.specs.List.{list_of};

use crate::entries::{Entry, insert, stops_at};
use crate::next::{Heads, heads_of, next_node, renewed, stored};
use crate::worth::worth_of;
use packed::bits::put;
use state::marks::set_mark;

// What a turn leaves besides what lies in the buffers.
#[derive(Clone, Copy)]
pub struct Turn {
    pub kept: usize,
    pub recomputed: u64,
    pub heads: Heads,
}

// One turn: the next node is taken. None where the list is done: nothing is written then.
fn one_turn(
    edges: &[u8],
    figures: &mut [u64],
    marks: &mut [u8],
    taken: &mut [u8],
    entries: &mut [u64],
    k: usize,
    last: Turn,
) -> Option<Turn>
    requires { TurnFits figures.old edges.now marks.old taken.old entries.old k last }
    ensures { Turned (truth_of edges.now figures.old) k (progress_of figures.old marks.old taken.old entries.old last) result figures.new marks.new taken.new entries.old entries.new }
{
    let p = next_node(figures, &last.heads)?;
    if stops_at(entries, last.kept, k, stored(figures, p)) {
        return None;
    }
    let w = worth_of(edges, figures, marks, p, last.recomputed);
    figures[p] = w.figure;
    set_mark(marks, p, false);
    put(taken, p, true);
    let listed = Entry {
        node: p as u64,
        figure: w.figure,
    };
    Some(Turn {
        kept: insert(entries, last.kept, k, listed),
        recomputed: w.recomputed,
        heads: renewed(figures, taken, last.heads, p),
    })
}

// All turns, from no node taken. Returns how many nodes were recomputed.
pub(crate) fn run(
    edges: &[u8],
    figures: &mut [u64],
    marks: &mut [u8],
    taken: &mut [u8],
    entries: &mut [u64],
    k: usize,
) -> u64
    requires { ListFits (length figures.old) edges.now marks.old entries.old k × (taken.old ≡ replicate (scratch_bytes (length figures.old)) 0) }
    ensures { Leaves (list_of (state edges.now figures.old marks.old) k) figures.new marks.new entries.old entries.new result }
{
    let mut turn = Turn {
        kept: 0,
        recomputed: 0,
        heads: heads_of(figures, taken),
    };
    for _i in 0..figures.len() {
        let Some(next) = one_turn(edges, figures, marks, taken, entries, k, turn) else {
            return turn.recomputed;
        };
        turn = next;
    }
    turn.recomputed
}
