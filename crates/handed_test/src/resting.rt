// Whether handed-in banks are at rest: "when no packet is in the network and send, ack, all and note are each refused for every running
// column and every j".
use crate::fine::with_junk;
use crate::state::{C0, C1, C2, C3, State, acknowledgement, halted, member, quiet, resting, root};
use bank::rest::at_rest;
use column::state::Column;
use column::tree::{ASCENDING, Tree};
use std::io;

fn rest(out: io::Stdout, name: &str, s: State) -> io::Result<()> {
    let rests = if at_rest(s.bank, &s.network) {
        "at rest"
    } else {
        "not at rest"
    };
    println!(out; "{name}: {rests}")
}

// The same state without a packet and with one.
fn with_and_without(out: io::Stdout, name: &str, s: State) -> io::Result<()> {
    let packet = s.with_words(0, acknowledgement(1, 0, 5), 0);
    rest(out, name, s)?;
    print!(out; "a packet and ")?;
    rest(out, name, packet.with_count(1))
}

// Every step is refused by 2, 3 or 4, whatever there is to do.
fn refused(out: io::Stdout) -> io::Result<()> {
    let s = resting().with_column(0, root(C1, 0, C1, 0));
    let rootless = Tree {
        columns: 3,
        root: 3,
        up: [0; 16],
        first: ASCENDING,
        watch: false,
    };
    let seventeen = Tree {
        columns: 17,
        root: 0,
        ..rootless
    };
    let stranger = s.with_column(2, halted(member(0, 0, 0, C3)));
    let itself = s.with_column(1, member(0, 0, C1, 0));
    let own = s.with_column(0, member(C1, 0, C1, 0));
    with_and_without(out, "17 columns", s.with_tree(seventeen))?;
    with_and_without(out, "root 3", s.with_tree(rootless))?;
    with_and_without(out, "3 in noted of a halted column", stranger)?;
    with_and_without(out, "a column that owes itself", itself)?;
    with_and_without(out, "a root whose goal is own", own)?;
    for count in [513, usize::MAX] {
        print!(out; "{count} ")?;
        rest(out, "packets", s.with_count(count))?;
    }
    Ok(())
}

fn all_halted(out: io::Stdout) -> io::Result<()> {
    let s = quiet()
        .with_column(0, halted(root(C1, C1, C1, 0)))
        .with_column(1, halted(member(C2, 0, C0, C0)));
    with_and_without(out, "all halted", s)
}

// One column with one thing to do, and beside it one with as much that cannot be done.
fn one_thing(out: io::Stdout) -> io::Result<()> {
    let things: [(&str, usize, Column); 12] = [
        ("something to send", 0, root(C1, 0, 0, C2)),
        ("itself to send to", 0, root(C0, 0, 0, C2)),
        ("something to send, halted", 2, halted(member(C1, 0, C1, 0))),
        ("to acknowledge", 1, member(0, 0, C0, C2)),
        (
            "to acknowledge, goal whole and awaiting",
            1,
            root(0, C0, C0, C2),
        ),
        (
            "to acknowledge, but goal own and awaiting",
            1,
            member(0, C0, C0, C2),
        ),
        ("to take over", 1, member(0, 0, 0, C0 | C2)),
        ("to take over, but awaiting", 1, member(0, C0, 0, C0 | C2)),
        ("to take over, but goal whole", 1, root(0, 0, 0, C0 | C2)),
        ("to note", 1, member(0, 0, 0, 0)),
        ("to note, halted", 2, halted(member(0, 0, 0, 0))),
        ("awaiting", 0, root(0, C1, 0, C2)),
    ];
    for (name, i, c) in things {
        rest(out, name, resting().with_column(i, c))?;
    }
    Ok(())
}

pub fn cases(out: io::Stdout) -> io::Result<()> {
    with_and_without(out, "nothing to do", resting())?;
    rest(out, "junk in unused places", with_junk(resting()))?;
    refused(out)?;
    all_halted(out)?;
    one_thing(out)
}
