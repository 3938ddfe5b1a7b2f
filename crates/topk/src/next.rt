// The node that is taken next: the first by rank of the blocks' heads, a block's head being the first of its nodes that are not taken. The figures of these
// do not change while the list runs, so that only the head of a block of which a node was taken is found anew.
ghost use Rattle.std.specs.Prelude.{◌≡◌, ℕ, ◌/◌, ◌<◌, ◌≤◌, get_or, length};
ghost use Rattle.packed.specs.Pairs.{max_nodes};
ghost use Rattle.topk.specs.Entries.{entry};
ghost use Rattle.topk.specs.Steps.{better};
ghost use Rattle.topk.specs.Inside.Next.{best_head, blocks_for, block_size, first_of, head_of, HeadsAre, HeadsBut, Lookable, Found, looking_in, Names, next_of};

use crate::entries::Entry;
use packed::bits::get;
use packed::edges::MAX_NODES;

// The nodes of a block, and the most blocks that there are.
pub const BLOCK: usize = 16;

pub const BLOCKS: usize = MAX_NODES / BLOCK;

// The head of each block. The number of nodes stands for none, here and below: with an Option a list takes a tenth longer.
pub type Heads = [u16; BLOCKS];

// Node p with its figure.
pub(crate) fn stored(figures: &[u64], p: usize) -> Entry
    requires { p < length figures.now }
    ensures { result ≡ entry p (get_or figures.now p 0) }
{
    Entry {
        node: p as u64,
        figure: figures[p],
    }
}

// Of two nodes, the one that ranks first.
fn first_of(figures: &[u64], a: usize, b: usize) -> usize
    requires { (a ≤ length figures.now) × (b ≤ length figures.now) }
    ensures { Names (length figures.now) (first_of figures.now (next_of (length figures.now) a) (next_of (length figures.now) b)) result }
{
    if figures.len() <= b {
        return a;
    }
    if figures.len() <= a {
        return b;
    }
    let x = stored(figures, a);
    let y = stored(figures, b);
    if y.ranks_before(x) { b } else { a }
}

// Of the best so far and node i, the one that ranks first. A node that is taken does not count.
fn better(figures: &[u64], taken: &[u8], best: usize, i: usize) -> usize
    requires { (i < length figures.now) × (best ≤ length figures.now) × Lookable figures.now taken.now }
    ensures { Names (length figures.now) (better (looking_in figures.now taken.now) (next_of (length figures.now) best) i) result }
{
    if get(taken, i) {
        return best;
    }
    first_of(figures, best, i)
}

// The head of block b.
fn head_of(figures: &[u64], taken: &[u8], b: usize) -> usize
    requires { (b < blocks_for (length figures.now)) × Lookable figures.now taken.now }
    ensures { Names (length figures.now) (head_of (looking_in figures.now taken.now) b) result }
{
    let n = figures.len();
    let mut best = n;
    for i in BLOCK * b..n.min(BLOCK * b + BLOCK) {
        best = better(figures, taken, best, i);
    }
    best
}

// How many blocks n nodes have.
fn blocks_for(n: usize) -> usize
    requires { n ≤ max_nodes }
    ensures { result ≡ blocks_for n }
{
    n.div_ceil(BLOCK)
}

// The heads of all blocks.
pub(crate) fn heads_of(figures: &[u64], taken: &[u8]) -> Heads
    requires { Lookable figures.now taken.now }
    ensures { HeadsAre (looking_in figures.now taken.now) result }
{
    let mut heads = [0u16; BLOCKS];
    // By number: over the places themselves the loop is slower.
    for b in 0..blocks_for(figures.len()) {
        heads[b] = head_of(figures, taken, b) as u16;
    }
    heads
}

// The heads after node p was taken.
pub(crate) fn renewed(figures: &[u64], taken: &[u8], mut heads: Heads, p: usize) -> Heads
    requires { (p < length figures.now) × Lookable figures.now taken.now × HeadsBut (looking_in figures.now taken.now) heads (p / block_size) }
    ensures { HeadsAre (looking_in figures.now taken.now) result }
{
    let b = p / BLOCK;
    heads[b] = head_of(figures, taken, b) as u16;
    heads
}

// The first by rank of the heads.
pub(crate) fn next_node(figures: &[u64], heads: &Heads) -> Option<usize>
    requires { (length figures.now ≤ max_nodes) × ((b : ℕ) → b < blocks_for (length figures.now) → get_or heads.now b 0 ≤ length figures.now) }
    ensures { Found (length figures.now) (best_head figures.now heads.now (blocks_for (length figures.now))) result }
{
    let n = figures.len();
    let mut best = n;
    for head in &heads[..blocks_for(n)] {
        best = first_of(figures, best, *head as usize);
    }
    if best < n { Some(best) } else { None }
}
