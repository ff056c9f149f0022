// Compares the journals in the two files that its arguments name. It has no heap: a path, a journal and what is missing have arrays of their longest, and how much of
// each is filled beside them.
#![tactic(auto)]

use journals::comparison::compare;
use journals::line::JOURNAL;
use std::env::Env;
use std::fs::File;
use std::io;
use std::str::from_utf8;
use streams::read_full;

// The longest path that a system takes.
const PATH: usize = 4096;

// A file that cannot be read is as an empty one, which is no journal.
fn read_file<'a>(rt: &HostRuntime, argument: usize, room: &'a mut [u8]) -> &'a [u8] {
    let mut path = [0u8; PATH];
    let Ok(length) = rt.arg(argument, &mut path) else {
        return &[];
    };
    let Ok(name) = from_utf8(&path[..length]) else {
        return &[];
    };
    let Ok(mut file) = File::open(rt, name) else {
        return &[];
    };
    let (n, _) = read_full(&mut file, room);
    &room[..n]
}

// A write that fails ends it with that error.
fn main(rt: HostRuntime) -> io::Result<()> {
    // No heap. One byte more than the limit shows that a journal is too long.
    let mut room = [0u8; JOURNAL + 1];
    let mut other_room = [0u8; JOURNAL + 1];
    let one = read_file(&rt, 1, &mut room);
    let two = read_file(&rt, 2, &mut other_room);
    // What is missing is never longer than both journals (`missing_within` of MissingLength), so that it always fits.
    let mut missing = [0u8; JOURNAL * 2];
    match compare(one, two, &mut missing) {
        Ok(length) => rt.write_all(&missing[..length]),
        Err(refusal) => println!(rt; "{refusal}"),
    }
}
