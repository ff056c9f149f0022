// Two refusals at once: those of a column that may not act, of the order numbers, and of places.
use crate::case::Case;
use crate::state::{C0, C1, C2, busy, member, numbered, quiet, root};
use bank::bank::Step;
use column::packet::HIGHEST;
use std::io;

fn six(out: io::Stdout) -> io::Result<()> {
    let full = busy().with_column(0, root(0, 0, 0, 0)).filled(512);
    let sends = busy().with_column(1, member(C2, 0, C0, 0)).filled(512);
    let awaits = busy().with_column(1, member(0, C2, C0, 0)).filled(512);
    let noted = busy().with_column(0, root(C1, C2, 0, C0 | C2));
    let sending = "6 over 9, owed, but sending, and 512 packets";
    let awaiting = "6 over 9, owed, but awaiting, and 512 packets";
    let refused = [
        (
            "6 over 9, nothing to send and 512 packets",
            full,
            Step::Send(0),
        ),
        ("6 over 9, nobody owed and 512 packets", full, Step::Ack(0)),
        (sending, sends, Step::Ack(1)),
        (awaiting, awaits, Step::Ack(1)),
        ("6, the other runs", busy(), Step::Note(0, 1)),
        ("6, itself", busy(), Step::Note(0, 0)),
        ("6, noted before", noted, Step::Note(0, 2)),
    ];
    for (name, s, step) in refused {
        Case::run(name, s, step).answer(out)?;
    }
    Ok(())
}

fn taking_over(out: io::Stdout) -> io::Result<()> {
    let refused = [
        ("6, the root", 0, root(0, 0, 0, C0)),
        ("6, the root not noted", 1, member(0, 0, C0, C2)),
        ("6, the goal whole before", 1, root(0, 0, C0, C0)),
        ("6, sending", 1, member(C2, 0, C0, C0)),
        ("6, awaiting", 1, member(0, C2, C0, C0)),
    ];
    for (name, i, c) in refused {
        Case::run(name, busy().with_column(i, c), Step::All(i)).answer(out)?;
    }
    Ok(())
}

fn seven_and_eight(out: io::Stdout) -> io::Result<()> {
    let sends = busy().with_column(0, numbered(root(C1, 0, 0, 0), HIGHEST));
    let awaits = busy().with_column(0, numbered(root(0, C1, 0, 0), HIGHEST));
    let last_but_one = busy().with_column(0, numbered(root(0, 0, 0, 0), HIGHEST - 1));
    let order = Step::Order(9);
    Case::run("7 over 8, the root sends at 4294967295", sends, order).answer(out)?;
    Case::run("7 over 8, the root awaits at 4294967295", awaits, order).answer(out)?;
    Case::run("the root at 4294967294", last_but_one, order).effect(out, 0)
}

fn ten(out: io::Stdout) -> io::Result<()> {
    let highest = Step::Take(usize::MAX);
    let full = busy().filled(512);
    Case::run("10, the count itself", busy(), Step::Take(6)).answer(out)?;
    Case::run("10, the highest place", busy(), highest).answer(out)?;
    Case::run("10, no packets", quiet(), Step::Take(0)).answer(out)?;
    Case::run("10 over 9, 512 packets", full, Step::Take(512)).answer(out)
}

pub fn cases(out: io::Stdout) -> io::Result<()> {
    six(out)?;
    taking_over(out)?;
    seven_and_eight(out)?;
    ten(out)
}
