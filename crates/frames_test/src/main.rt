// Frames as the core reads them, one to a line: first those of `edges.rt`, then those of standard input. Each line has how many packets the
// frame has, or its refusal, and how many of the 512 places hold a packet; of those of standard input also what the converter answers.
#![tactic(auto)]

mod converted;
mod edges;
mod input;
mod print;

use std::io;

fn main(rt: HostRuntime) -> io::Result<()> {
    let out = rt.stdout();
    edges::show(out)?;
    input::show(rt.stdin(), out)
}
