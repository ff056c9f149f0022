// The two ends of a line: at one the core of a root, at the other those of its two children. One order goes down in a frame of two messages, and
// the two acknowledgements come up in one. Each frame is printed as the bytes that go over the line, and each column's record as it is in the end,
// with whom it still awaits. Then a line of which one end is old, and what the core answers of a larger tree.
#![tactic(auto)]

mod controller;
mod failure;
mod line;
mod mixed;
mod print;
mod tree;

use crate::controller::Controller;
use crate::failure::Failure;
use crate::line::over_the_line;
use crate::print::{Hex, Set};
use column::tree::{ASCENDING, Tree};
use std::io;

const ROOT: usize = 0;

const FIRST: usize = 1;

const SECOND: usize = 2;

// Doors 1 and 10: bit 0 of byte 0 and bit 1 of byte 1.
const DOORS: u64 = 1 + 2 * 256;

// A column's record, with the doors as a packet has them, byte 0 first, and whom it awaits.
fn show(out: io::Stdout, end: &Controller) -> io::Result<()> {
    let c = end.column;
    let bytes = c.doors.to_le_bytes();
    println!(out; "column={}", end.number)?;
    println!(out; "number={}", c.number)?;
    println!(out; "doors={}", Hex(&bytes))?;
    println!(out; "awaited={}", Set(c.awaited))
}

fn exchange(out: io::Stdout) -> Result<(), Failure> {
    let t = Tree {
        columns: 3,
        root: ROOT,
        up: [0; 16],
        first: ASCENDING,
        watch: false,
    };
    let mut root = Controller::new(t, ROOT)?;
    let mut first = Controller::new(t, FIRST)?;
    let mut second = Controller::new(t, SECOND)?;
    root.order(DOORS)?;
    let down = over_the_line(out, root.send()?, root.send()?)?;
    first.receive(down.bytes())?;
    second.receive(down.bytes())?;
    let up = over_the_line(out, first.ack()?, second.ack()?)?;
    root.receive(up.bytes())?;
    show(out, &root)?;
    show(out, &first)?;
    show(out, &second)?;
    Ok(())
}

fn main(rt: HostRuntime) -> Result<(), Failure> {
    let out = rt.stdout();
    exchange(out)?;
    mixed::show(out)?;
    tree::show(out)?;
    Ok(())
}
