// The calls that a C program makes: include/fuortsjam.h declares them. The number of nodes is given, and the figures are bytes.
// Each is a function of its own that answers a refusal by its number, and takes the three buffers one by one: that is what C can call.
#![tactic(auto)]

pub mod figures;
pub mod requests;

ghost use Rattle.std.specs.Prelude.{◌≡◌};
ghost use Rattle.state.specs.Outcome.{left};
ghost use Rattle.capi.specs.Calls.{fj_clear, fj_add, fj_remove, fj_score};
ghost use Rattle.state.specs.State.{state};

use crate::requests::{clear_bytes, edit_bytes};
use calls::score::score;
use state::refusal::{number_of, one_number};

// Clears the board.
#[unsafe(no_mangle)]
pub extern "C" fn fj_clear(n: u64, links: &mut [u8], figures: &mut [u8], marks: &mut [u8]) -> u64
    ensures { left result (state links.new figures.new marks.new) ≡ fj_clear n (state links.old figures.old marks.old) }
{
    number_of(clear_bytes(n, links, figures, marks))
}

// Adds the link of posts a and b.
#[unsafe(no_mangle)]
pub extern "C" fn fj_add(
    n: u64,
    links: &mut [u8],
    figures: &mut [u8],
    marks: &mut [u8],
    a: u64,
    b: u64,
) -> u64
    ensures { left result (state links.new figures.new marks.new) ≡ fj_add n (state links.old figures.old marks.old) a b }
{
    number_of(edit_bytes(n, links, figures, marks, a, b, true))
}

// Removes the link of posts a and b.
#[unsafe(no_mangle)]
pub extern "C" fn fj_remove(
    n: u64,
    links: &mut [u8],
    figures: &mut [u8],
    marks: &mut [u8],
    a: u64,
    b: u64,
) -> u64
    ensures { left result (state links.new figures.new marks.new) ≡ fj_remove n (state links.old figures.old marks.old) a b }
{
    number_of(edit_bytes(n, links, figures, marks, a, b, false))
}

// The score of a post in grains, or 2^64 less the refusal number. Nothing lent is written.
#[unsafe(no_mangle)]
pub extern "C" fn fj_score(n: u64, links: &[u8], post: u64) -> u64
    ensures { result ≡ fj_score n links.now post }
{
    one_number(score(links, n as usize, post as usize))
}
