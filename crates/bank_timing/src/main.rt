// Many laps of one step of a bank, for the benchmark beside plain C. Standard input is the step's letter, N, H, S or T, the columns in two digits,
// the packets under way in three and the number of laps, as `T 16 100 1000`. What is printed folds what each lap left into one number, so that no
// step can be left out.
#![tactic(auto)]

mod bank_laps;

use laps_timing::number;
use std::io;
use streams::read_full;

fn main(rt: HostRuntime) -> io::Result<()> {
    let mut input = [0u8; 32];
    let _ = read_full(&mut rt.stdin(), &mut input);
    let sum = bank_laps::run(
        input[0],
        input[1],
        number(&input[2..4]),
        number(&input[5..8]),
        number(&input[9..]),
    );
    println!(rt; "{sum}")
}
