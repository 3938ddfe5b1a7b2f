// The neighbourhoods of the two ends of an edge, with the edge present, as words. All that the rules ask of a common neighbour stands there too: the
// nodes that they go over are neighbours of an end.
ghost use Rattle.std.specs.Prelude.{true, not, ◌&&◌, ◌≡◌, ◌≤◌, ◌<◌, eqb, get_or};
ghost use Rattle.arith.specs.Digits.{bit_of};
ghost use Rattle.arith.specs.Sums.{pack_to};
ghost use Rattle.packed.specs.Edges.{with_edge};
ghost use Rattle.packed.specs.Inside.Search.{FirstIn};
ghost use Rattle.ego.specs.Limits.{limit};
ghost use Rattle.preview.specs.Inside.Ends.{Affected, BothEnds, Crossable, crossing_of, EndOf};

use crate::rules::has_bit;
use ego::limits::{WORDS, Word};
use ego::neighbours::{Neighbours, members};
use ego::words::{lacking, word_of, words_of};
use packed::rows::{insert, row_of};

// The neighbours of an end, the other end at the place `at` among them, and the words of their edges.
#[derive(Clone, Copy)]
pub struct End {
    pub near: Neighbours,
    pub words: [Word; WORDS],
    pub at: usize,
}

impl End {
    // Which of the neighbours are not linked to the other end and are not it, a bit for each.
    pub(crate) fn apart(&self) -> Word
        requires { (self.now.at < self.now.near.count) × (self.now.near.count ≤ limit) }
        ensures { result ≡ pack_to (λ k. not (bit_of (get_or self.now.words self.now.at 0) k) && not (eqb k self.now.at)) self.now.near.count }
    {
        lacking(self.words[self.at] | 1 << self.at, self.near.count)
    }
}

// Both ends; and for each neighbour of the one that is not linked to the other a word of the other's neighbours that are linked to it, `forth` from the
// first end's neighbours and `back` from the second's.
#[derive(Clone, Copy)]
pub struct Ends {
    pub first: End,
    pub second: End,
    pub forth: [Word; WORDS],
    pub back: [Word; WORDS],
}

// The place of node q among some neighbours.
pub(crate) fn place_of(near: &Neighbours, q: usize) -> Option<usize>
    requires { near.now.count ≤ limit }
    ensures { FirstIn (λ i. eqb (get_or near.now.nodes i 0) q) 0 near.now.count result }
{
    near.nodes[..near.count]
        .iter()
        .position(|&node| node as usize == q)
}

// The end u of the edge u, v. No neighbour of u is u, so the edge is not among their edges.
fn end_of(edges: &[u8], n: usize, u: usize, v: usize) -> End
    requires { Affected edges.now n u v u }
    ensures { EndOf (with_edge edges.now u v true) n u v result }
{
    let mut row = row_of(edges, n, u);
    insert(&mut row, v);
    let near = members(row, n);
    End {
        near,
        words: words_of(edges, &near),
        at: place_of(&near, v).unwrap(),
    }
}

// For each neighbour of an end that is not linked to the other, which of the other's neighbours are linked to it; none elsewhere.
fn across(edges: &[u8], from: &End, to: &End) -> [Word; WORDS]
    requires { Crossable edges.now from.now to.now }
    ensures { result ≡ crossing_of edges.now from.now to.now }
{
    let linked = from.words[from.at];
    let mut crossing: [Word; WORDS] = [0; WORDS];
    for (k, word) in crossing[..from.near.count].iter_mut().enumerate() {
        if !has_bit(linked, k) {
            *word = word_of(edges, from.near.nodes[k] as usize, &to.near);
        }
    }
    crossing
}

// Both ends of the edge a, b.
pub(crate) fn ends_of(edges: &[u8], n: usize, a: usize, b: usize) -> Ends
    requires { Affected edges.now n a b a × Affected edges.now n b a b }
    ensures { BothEnds edges.now n a b result }
{
    let first = end_of(edges, n, a, b);
    let second = end_of(edges, n, b, a);
    Ends {
        first,
        second,
        forth: across(edges, &first, &second),
        back: across(edges, &second, &first),
    }
}
