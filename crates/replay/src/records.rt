// The records of a script, each done on a state and answered by its lines.
ghost use Rattle.std.specs.Prelude.{ℕ, ◌<◌, ◌≡◌, ◌≤◌, length};
ghost use Rattle.packed.specs.Pairs.{max_nodes};
ghost use Rattle.script.specs.Record.{a_record};
ghost use Rattle.script.specs.declared.step.Record.TheVariants.{ListFirst};

use crate::{lines, space};
use calls::clear::clear;
use edits::edit::{add, remove};
use packed::edges::MAX_NODES;
use script::reader::read;
use script::step::{FIRST_RECORD, Item, MAX_BYTES, Malformed, Record};
use state::refusal::number_of;
use state::sizes::{edge_bytes, mark_bytes};
use std::io;
use std::io::Write;
use topk::list::list;

// Prints the first k entries, each a node and its grains.
fn print_entries<W: Write>(out: &mut W, entries: &[u64; 2 * MAX_NODES], k: usize) -> io::Result<()>
    requires { k ≤ max_nodes }
{
    for entry in entries[..2 * k].chunks_exact(2) {
        lines::two(out, entry[0], entry[1])?;
    }
    Ok(())
}

// Lists the first k nodes.
fn do_list<W: Write>(
    out: &mut W,
    edges: &[u8],
    figures: &mut [u64],
    marks: &mut [u8],
    k: usize,
) -> io::Result<()>
    requires { k ≤ max_nodes }
{
    let mut entries = space::entries();
    let mut scratch = space::scratch();
    let end = 2 * k;
    let answer = list(edges, figures, marks, &mut entries[..end], &mut scratch);
    match answer {
        Ok(recomputed) => {
            lines::three(out, "head", k as u64, 0, recomputed)?;
            print_entries(out, &entries, k)
        }
        Err(refusal) => lines::three(out, "head", k as u64, u64::from(refusal), 0),
    }
}

// Does what the script's reader yields.
fn do_item<W: Write>(
    out: &mut W,
    item: Item,
    edges: &mut [u8],
    figures: &mut [u64],
    marks: &mut [u8],
) -> io::Result<()>
    requires { (k : ℕ) → item ≡ a_record (ListFirst k) → k ≤ max_nodes }
{
    match item {
        Ok(Some(Record::Add { a, b })) => {
            let refusal = number_of(add(edges, figures, marks, a, b));
            lines::three(out, "add", a as u64, b as u64, refusal)
        }
        Ok(Some(Record::Remove { a, b })) => {
            let refusal = number_of(remove(edges, figures, marks, a, b));
            lines::three(out, "remove", a as u64, b as u64, refusal)
        }
        Ok(Some(Record::ListFirst { k })) => do_list(out, edges, figures, marks, k),
        Ok(None) => lines::word(out, "end"),
        Err(Malformed) => lines::word(out, "bad"),
    }
}

// Does the records of a script in order, to its end or to what is malformed.
fn do_records<W: Write>(
    out: &mut W,
    script: &[u8],
    edges: &mut [u8],
    figures: &mut [u64],
    marks: &mut [u8],
) -> io::Result<()>
    requires { 0 < length script.now }
{
    let mut at = FIRST_RECORD;
    loop {
        let step = read(script, at);
        do_item(out, step.item, edges, figures, marks)?;
        if step.at == at {
            return Ok(());
        }
        at = step.at;
    }
}

// Clears a state and does the records of a script on it.
fn from_cleared<W: Write>(
    out: &mut W,
    script: &[u8],
    edges: &mut [u8],
    figures: &mut [u64],
    marks: &mut [u8],
) -> io::Result<()>
    requires { 0 < length script.now }
{
    // A cleared state is of lengths that fit, so that nothing refuses it.
    let _ = clear(edges, figures, marks);
    do_records(out, script, edges, figures, marks)
}

// Does the records of a script on a cleared state of n nodes.
fn on_nodes<W: Write>(out: &mut W, script: &[u8], n: usize) -> io::Result<()>
    requires { (0 < length script.now) × (0 < n) × (n ≤ max_nodes) }
{
    let mut edges = space::edges();
    let mut figures = space::figures();
    let mut marks = space::marks();
    let edge_end = edge_bytes(n);
    let mark_end = mark_bytes(n);
    from_cleared(
        out,
        script,
        &mut edges[..edge_end],
        &mut figures[..n],
        &mut marks[..mark_end],
    )
}

// Replays a script: the number of nodes, the lines of its records, and whether it ends or is malformed.
pub(crate) fn replay<W: Write>(out: &mut W, script: &[u8]) -> io::Result<()> {
    if script.is_empty() || MAX_BYTES < script.len() {
        return lines::word(out, "bad");
    }
    let n = script[0] as usize + 1;
    lines::one(out, "posts", n as u64)?;
    on_nodes(out, script, n)
}
