// Runs histories of calls on lent memory, which a script on standard input gives, and writes a line for each
// record: the answer, a blank, and a digest of the whole memory and the head after it. host/src/histories.rs
// writes the scripts, and works out from the original what the lines have to be.
#![tactic(auto)]

mod digest;
#[cfg(test)]
mod inputs;
mod lines;
mod memory;
mod records;
mod script;

use std::io;

fn main(rt: HostRuntime) -> io::Result<()> {
    script::run(&rt, &mut rt.stdin())
}
