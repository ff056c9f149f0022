// The edges of document 01 that are run and not proved, and what is next to each; journals compared in short buffers: one line a case with its answer.
#![tactic(auto)]

mod buffer;
mod comparisons;
mod lines;
mod lists;
mod print;
mod tables;

use std::io;

fn main(rt: HostRuntime) -> io::Result<()> {
    let out = rt.stdout();
    lists::cases(out)?;
    tables::cases(out)?;
    lines::cases(out)?;
    comparisons::cases(out)
}
