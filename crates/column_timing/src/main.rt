// Many laps of one step of a lone column, or of a frame read, for the benchmark beside plain C. Standard input is the step's letter, or f for the
// frame, and the number of laps, as `s 1000`. What is printed folds what each lap left into one number, so that no step can be left out.
#![tactic(auto)]

mod column_laps;
mod frame_laps;

use laps_timing::number;
use std::io;
use streams::read_full;

fn main(rt: HostRuntime) -> io::Result<()> {
    let mut input = [0u8; 32];
    let _ = read_full(&mut rt.stdin(), &mut input);
    let letter = input[0];
    let laps = number(&input[2..]);
    // A letter that is read chooses one of two programs, which take other parameters.
    let sum = match letter {
        b'f' => frame_laps::run(laps),
        _ => column_laps::run(letter, input[1], laps),
    };
    println!(rt; "{sum}")
}
