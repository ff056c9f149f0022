// Closing lists: 229 bytes hold the longest list and 228 don't, as document 01 says it of 224 and 223, and document 02, Point 10, "the longest list is 229".
use crate::buffer::{FILLED, Lent};
use crate::print::Refused;
use bank::bank::{Bank, Network, fresh};
use column::packet::HIGHEST;
use column::tree::{ASCENDING, Tree};
use script::bank_list::list;
use std::io;

// More than the longest list takes.
const ROOM: usize = 235;

const LISTER: usize = 10;

const TREE: Tree = Tree {
    columns: 16,
    root: 0,
    up: [0; 16],
    first: ASCENDING,
    watch: false,
};

// The lister's list is the longest.
fn bank(mut b: Bank, running: bool, whole: bool) -> Bank {
    b.columns[LISTER].running = running;
    b.columns[LISTER].number = HIGHEST;
    b.columns[LISTER].doors = u64::MAX;
    b.columns[0].whole = whole;
    b
}

// A list of column i, which is lent the first `size` bytes of a buffer and is to begin at a place.
#[derive(Clone, Copy)]
struct Listing<'a> {
    name: &'a str,
    bank: Bank,
    i: usize,
    size: usize,
    at: usize,
}

impl Listing<'_> {
    fn show(&self, out: io::Stdout) -> io::Result<()> {
        let mut buffer = [FILLED; ROOM];
        let at = self.at;
        print!(out; "{}list of column {} of 16, ", self.name, self.i)?;
        print!(out; "{} bytes, place {at}: ", self.size)?;
        if let Some(lent) = buffer.get_mut(..self.size) {
            let written = list(self.bank, self.i, &Network::EMPTY, lent, at);
            let buffer = &buffer;
            print!(out;
                "{}",
                Lent {
                    buffer,
                    at,
                    written
                }
            )?;
        }
        println!(out)
    }
}

// The four lines as they are, in a buffer of just their bytes.
fn longest(out: io::Stdout, b: Bank) -> io::Result<()> {
    let mut buffer = [FILLED; 229];
    if let Ok(n) = list(b, LISTER, &Network::EMPTY, &mut buffer, 0) {
        println!(out; "the longest list, {n} bytes:")?;
        out.write_all(&buffer)?;
    }
    Ok(())
}

fn of_bank(out: io::Stdout, begun: Bank) -> io::Result<()> {
    let running = Listing {
        name: "",
        bank: bank(begun, true, true),
        i: LISTER,
        size: ROOM,
        at: 0,
    };
    let halted = Listing {
        name: "halted, ",
        bank: bank(begun, false, true),
        ..running
    };
    let wrong = Listing {
        name: "halted and a root whose goal is own, ",
        bank: bank(begun, false, false),
        ..running
    };
    longest(out, running.bank)?;
    for size in [229, 228] {
        Listing { size, ..running }.show(out)?;
    }
    for at in [3, 6, 7, ROOM, ROOM + 1, usize::MAX] {
        Listing { at, ..running }.show(out)?;
    }
    for (i, size) in [(LISTER, 0), (9, ROOM), (16, ROOM), (16, 0)] {
        Listing { i, size, ..running }.show(out)?;
    }
    halted.show(out)?;
    Listing { size: 0, ..halted }.show(out)?;
    Listing { size: 0, ..wrong }.show(out)
}

pub fn cases(out: io::Stdout) -> io::Result<()> {
    match fresh(TREE) {
        Ok(begun) => of_bank(out, begun),
        Err(refusal) => println!(out; "{}", Refused(refusal)),
    }
}
