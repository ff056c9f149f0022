// Answers the request for a fastest tree on standard input.
#![tactic(auto)]

use fastest_text::request::{LIMIT, TABLE, answer};
use std::io;
use streams::read_full;

// A write that fails ends it with that error. `main` of losses_main is alike. One function for both would be public and handed what answers, and would have
// to ask that this may be called, where no public function asks anything.
fn main(rt: HostRuntime) -> io::Result<()> {
    // No heap. One byte more than the limit shows that an input is too long.
    let mut input = [0u8; LIMIT + 1];
    // A read that fails is the end of the input.
    let (n, _) = read_full(&mut rt.stdin(), &mut input);
    let mut text = [0u8; TABLE];
    let length = answer(&input[..n], &mut text);
    rt.write_all(&text[..length])
}
