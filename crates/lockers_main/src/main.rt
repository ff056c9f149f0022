// Runs the script on standard input. All of it is read first, so that texts to print may wait and be written many at a time.
#![tactic(auto)]

use bank::bank::Network;
use script::script::{BUFFER, fill, start};
use std::io;
use streams::read_full;
use table::table::LIMIT;

// A write that fails ends it with that error.
fn main(rt: HostRuntime) -> io::Result<()> {
    // No heap. One byte more than the limit shows that an input is too long.
    let mut input = [0u8; LIMIT + 1];
    // A read that fails is the end of the input.
    let (n, _) = read_full(&mut rt.stdin(), &mut input);
    let mut network = Network::EMPTY;
    let mut texts = [0u8; BUFFER];
    let mut run = start();
    for k in 0..n + 2 {
        run = fill(run, &input[..n], &mut network, &mut texts);
        let length = run.length;
        rt.write_all(&texts[..length])?;
        if run.over {
            return Ok(());
        }
    }
    Ok(())
}
