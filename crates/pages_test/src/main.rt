// Register pages: a bank is stepped by the commands of standard input, its pages are read and written between the steps, and every answer is a
// line. The commands of `stdin` beside `src` run a takeover; tests/cases/test_pages.py hands in others.
#![tactic(auto)]

mod command;
mod input;

use std::io;

fn main(rt: HostRuntime) -> io::Result<()> {
    input::show(rt.stdin(), rt.stdout())
}
