// The bank's steps on banks handed in that no script reaches: one line a case, with the step, its answer, whether the bank and both
// arrays are as they were, and what the step did.
#![tactic(auto)]

mod case;
mod comparing;
mod dispatching;
mod fine;
mod five;
mod full;
mod halting;
mod later_overlaps;
mod members;
mod overlaps;
mod packets;
mod print;
mod resting;
mod returning;
mod same;
mod state;
mod watching;
mod writing;

use std::io;

fn main(rt: HostRuntime) -> io::Result<()> {
    let out = rt.stdout();
    comparing::cases(out)?;
    members::cases(out)?;
    packets::cases(out)?;
    fine::cases(out)?;
    overlaps::cases(out)?;
    later_overlaps::cases(out)?;
    full::cases(out)?;
    halting::cases(out)?;
    resting::cases(out)?;
    dispatching::cases(out)?;
    returning::cases(out)?;
    watching::cases(out)?;
    writing::cases(out)
}
