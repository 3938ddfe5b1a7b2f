// Sets of nodes as words of bits, the most significant bit of a word first: a node's row of the adjacency matrix is the set of its neighbours.
ghost use Rattle.std.specs.Prelude.{true, ◌≡◌, ◌*◌, ◌+◌, ◌≤◌, ◌<◌, length};
ghost use Rattle.std.proofs.lemmas.List.Edits.{sets};
ghost use Rattle.arith.specs.Sums.{count_to};
ghost use Rattle.packed.specs.Pairs.{max_nodes};
ghost use Rattle.packed.specs.Inside.Room.{Room};
ghost use Rattle.packed.specs.Inside.Rows.{both_of, either_of, in_set, in_word, members_in, members_of, row_of, rows_within, row_within, row_words, set_of, with_node, words_for};

use crate::bits::get;
use crate::edges::{MAX_NODES, row_start};
use crate::runs::run_of;

// The words of a set of nodes: 32 nodes in each.
pub const ROW_WORDS: usize = 8;

pub type Row = [u32; ROW_WORDS];

// A row for each node that a graph may have.
pub type Rows = [Row; MAX_NODES];

// The neighbours of p below p: the run of p's bits, word by word.
fn row_below(edges: &[u8], p: usize) -> Row
    requires { Room (p + 1) edges.now }
    ensures { result ≡ row_of edges.now p p }
{
    let start = row_start(p);
    let mut row = [0u32; ROW_WORDS];
    for (k, word) in row[..words_for(p)].iter_mut().enumerate() {
        let end = (32 * k + 32).min(p);
        *word = (run_of(edges, start + 32 * k, end - 32 * k) << (32 * k + 32 - end)) as u32;
    }
    row
}

// A set takes in node q.
pub fn insert(set: &mut [u32], q: usize)
    requires { (length set.old ≡ row_words) × (q < max_nodes) }
    ensures { set.new ≡ with_node set.old q }
{
    set[q / 32] |= 1 << (31 - q % 32);
}

// The neighbours of p. The bit of p and q + 1, for q above p, is q bits after that of p and q.
pub fn row_of(edges: &[u8], n: usize, p: usize) -> Row
    requires { (p < n) × Room n edges.now }
    ensures { result ≡ row_of edges.now n p }
{
    let mut row = row_below(edges, p);
    let mut i = row_start(p + 1) + p;
    for q in p + 1..n {
        if get(edges, i) {
            insert(&mut row, q);
        }
        i += q;
    }
    row
}

// The words that hold n nodes.
pub fn words_for(n: usize) -> usize
    requires { n ≤ max_nodes }
    ensures { result ≡ words_for n }
{
    n.div_ceil(32)
}

// How many nodes a word has.
fn ones_of(word: u32) -> usize
    ensures { result ≡ count_to (in_word word 0) 32 }
{
    word.count_ones() as usize
}

// The set of all nodes.
pub fn every_node() -> Row
    ensures { result ≡ set_of (λ q. true) }
{
    [u32::MAX; ROW_WORDS]
}

// The nodes that two sets have in common.
pub fn both(x: Row, y: Row) -> Row
    ensures { result ≡ both_of x y }
{
    let mut row = x;
    for (k, word) in row.iter_mut().enumerate() {
        *word &= y[k];
    }
    row
}

// A set takes in the nodes of a row.
pub fn include(set: &mut [u32], row: Row)
    requires { length set.old ≡ row_words }
    ensures { set.new ≡ either_of set.old row }
{
    for (k, word) in set.iter_mut().enumerate() {
        *word |= row[k];
    }
}

// Whether a set has node q.
fn contains(set: Row, q: usize) -> bool
    requires { q < max_nodes }
    ensures { result ≡ in_set set q }
{
    (set[q / 32] >> (31 - q % 32)) % 2 == 1
}

// The neighbours of q below q, where the set has q, and none elsewhere.
fn row_within(edges: &[u8], set: Row, q: usize) -> Row
    requires { Room (q + 1) edges.now }
    ensures { result ≡ row_within edges.now set q }
{
    if contains(set, q) {
        row_below(edges, q)
    } else {
        [0; ROW_WORDS]
    }
}

// The same for each of n nodes.
pub fn rows_within(edges: &[u8], n: usize, set: Row) -> Rows
    requires { Room n edges.now }
    ensures { result ≡ rows_within edges.now n set }
{
    let mut rows = [[0u32; ROW_WORDS]; MAX_NODES];
    for (q, row) in rows[..n].iter_mut().enumerate() {
        *row = row_within(edges, set, q);
    }
    rows
}

// How many nodes the first words of a set have.
pub fn size_of(row: Row, words: usize) -> usize
    requires { words ≤ row_words }
    ensures { result ≡ count_to (in_set row) (32 * words) }
{
    row[..words].iter().map(|word| ones_of(*word)).sum()
}

// Writes the nodes of a word, the first of which is `first`, to the places from `count` on, as far as there are any; returns the place after them.
fn append_word(word: u32, first: usize, nodes: &mut [u8], count: usize) -> usize
    requires { (first + 32 ≤ max_nodes) × (count ≤ length nodes.old + max_nodes) }
    ensures { (nodes.new ≡ sets nodes.old count (members_in word first)) × (result ≡ count + length (members_in word first)) }
{
    let end = first + 32;
    let mut left = word as u64;
    let mut at = count;
    while left != 0 {
        let after = 63 - left.leading_zeros() as usize;
        if at < nodes.len() {
            nodes[at] = (end - 1 - after) as u8;
        }
        at += 1;
        left -= 1 << after;
    }
    at
}

// Writes the nodes of the first words of a set to the places from `count` on, as far as there are any; returns the place after them.
pub fn append(row: Row, words: usize, nodes: &mut [u8], count: usize) -> usize
    requires { (words ≤ row_words) × (count ≤ length nodes.old) }
    ensures nodes_after { nodes.new ≡ sets nodes.old count (members_of row (32 * words)) }
    ensures value { result ≡ count + length (members_of row (32 * words)) }
{
    let mut at = count;
    for (k, word) in row[..words].iter().enumerate() {
        at = append_word(*word, 32 * k, nodes, at);
    }
    at
}
