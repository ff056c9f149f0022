// Handed-in banks dispatched: refused by 2, 3 and 4 and by nothing else, "the first accepted one" in a full network, and a turn's step that is
// refused.
use crate::print::{Answered, ColumnAt};
use crate::state::{
    C0, C1, C2, C3, State, TREE, busy, halted, member, message, quiet, resting, root,
};
use bank::dispatch::dispatch;
use bank::rest::at_rest;
use column::tree::Tree;
use std::io;

const LIMIT: usize = 9999;

// A line: the answer, the steps taken, whether the state is as it was, and column 1 after them. As in other files, a case has a name and a state of its own:
// a struct of both would be made for one call and taken apart in it.
fn dispatched(out: io::Stdout, name: &str, s: State, limit: usize) -> io::Result<()> {
    let mut after = s;
    let given = dispatch(s.bank, limit, &mut after.network);
    let mut steps = 0;
    if let Ok(done) = given {
        steps = done.steps;
        after.bank = done.bank;
    }
    let changed = if s == after { "unchanged" } else { "changed" };
    let rests = if at_rest(after.bank, &after.network) {
        "at rest"
    } else {
        "not at rest"
    };
    let count = after.bank.count;
    let answer = Answered(given.err());
    print!(out; "{name}, dispatch {limit}: {answer}, steps {steps}, {changed}")?;
    println!(out; ", count {count}, {rests}{}", ColumnAt(&after, 1))
}

fn refused(out: io::Stdout) -> io::Result<()> {
    let seventeen = Tree {
        columns: 17,
        ..TREE
    };
    let rootless = Tree { root: 3, ..TREE };
    let stranger = busy().with_column(2, halted(member(0, 0, 0, C3)));
    dispatched(out, "17 columns", busy().with_tree(seventeen), LIMIT)?;
    dispatched(out, "root 3", busy().with_tree(rootless), LIMIT)?;
    dispatched(out, "3 in noted of a halted column", stranger, LIMIT)?;
    dispatched(out, "513 packets", busy().with_count(513), 0)
}

fn limits(out: io::Stdout) -> io::Result<()> {
    for limit in [0, 1, LIMIT] {
        dispatched(out, "busy", busy(), limit)?;
    }
    dispatched(out, "at rest", resting(), LIMIT)?;
    dispatched(out, "2 not noted", quiet(), usize::MAX)
}

// 512 packets under way, the root as given beside an idle column 1 that has noted nobody.
fn full(c: u16, noted: u16) -> State {
    quiet().with_column(0, root(c, 0, 0, noted)).filled(512)
}

fn in_a_full_network(out: io::Stdout) -> io::Result<()> {
    let noted = full(C1, C2).with_column(1, member(0, 0, C0, C2));
    let left = full(C1, C2)
        .with_column(1, member(C0, 0, C0, C2))
        .with_words(0, message(0, 1, 6), 9);
    let banks = [
        ("a send that is 9 before a note", full(C1, C2), 1),
        ("a send to a halted column before a note", full(C2, C2), 1),
        ("a send and an ack that are 9", noted, 1),
        ("all is 9", left, LIMIT),
    ];
    for (name, s, limit) in banks {
        print!(out; "512 packets, ")?;
        dispatched(out, name, s, limit)?;
    }
    Ok(())
}

// The message to the running root is put, and the bank with it is 4.
fn no_bank_any_more(out: io::Stdout) -> io::Result<()> {
    let s = quiet()
        .with_column(0, root(0, 0, 0, C2))
        .with_column(1, member(C0, 0, 0, C2));
    dispatched(out, "a message to the root to send", s, LIMIT)
}

pub fn cases(out: io::Stdout) -> io::Result<()> {
    refused(out)?;
    limits(out)?;
    in_a_full_network(out)?;
    no_bank_any_more(out)
}
