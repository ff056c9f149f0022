// Many laps of a bank dispatched to rest, for the benchmark beside plain C. Standard input is the bank's letter, D, F or G, its columns in two digits,
// 16 for more and 1 for none, and the number of laps, as `F 16 10`. What is printed folds what each lap left into one number, so that no step can
// be left out.
#![tactic(auto)]

mod dispatch_laps;

use laps_timing::number;
use std::io;
use streams::read_full;

fn main(rt: HostRuntime) -> io::Result<()> {
    let mut input = [0u8; 32];
    let _ = read_full(&mut rt.stdin(), &mut input);
    let columns = number(&input[2..4]);
    let sum = dispatch_laps::run(input[0], input[1], columns, number(&input[5..]));
    println!(rt; "{sum}")
}
