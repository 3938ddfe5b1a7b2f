// The script program: replays the script on standard input and prints what comes of it, as 01's "Scripts" says.
#![tactic(auto)]

mod input;
mod lines;
mod records;
mod space;

use std::io;

fn main(rt: HostRuntime) -> io::Result<()> {
    let mut script = space::input();
    let count = input::read_full(&mut rt.reader(), &mut script)?;
    records::replay(&mut io::writer(&rt), &script[..count])
}
