// Row 4 of the packets and their count, and of the columns that a step names.
use crate::case::{Case, strip};
use crate::state::{C1, acknowledgement, busy, message};
use bank::bank::Step;
use std::io;

// A packet that is taken, and one behind the packet that is taken.
fn faulty(out: io::Stdout, fault: &str, head: u64) -> io::Result<()> {
    let places = [
        ("place 0", 0, Step::Take(0)),
        ("place 5", 5, Step::Take(0)),
        ("place 5", 5, Step::Send(0)),
    ];
    for (name, place, step) in places {
        print!(out; "{fault} at ")?;
        Case::run(name, busy().with_words(place, head, 7), step).answer(out)?;
    }
    Ok(())
}

fn packets(out: io::Stdout) -> io::Result<()> {
    let faults = [
        ("a message from 3", message(3, 1, 5)),
        ("a message to 3", message(0, 3, 5)),
        ("a message with equal ends", message(1, 1, 5)),
        ("a message to a halted column", message(0, 2, 5)),
        ("a message to the root", message(1, 0, 5)),
        ("an acknowledgement from 3", acknowledgement(3, 0, 5)),
        ("an acknowledgement to 3", acknowledgement(0, 3, 5)),
        (
            "an acknowledgement with equal ends",
            acknowledgement(0, 0, 5),
        ),
        (
            "an acknowledgement to a halted column",
            acknowledgement(0, 2, 5),
        ),
    ];
    for (fault, head) in faults {
        faulty(out, fault, head)?;
    }
    let s = busy().filled(512).with_words(511, message(1, 0, 5), 7);
    Case::run("a message to the root at place 511", s, Step::Take(0)).answer(out)
}

fn counts(out: io::Stdout) -> io::Result<()> {
    for count in [513, usize::MAX] {
        for step in [Step::Take(0), strip(C1)] {
            print!(out; "{count} ")?;
            Case::run("packets", busy().filled(count), step).answer(out)?;
        }
    }
    Ok(())
}

fn parameters(out: io::Stdout, i: usize) -> io::Result<()> {
    let steps = [
        Step::Send(i),
        Step::Ack(i),
        Step::All(i),
        Step::Note(i, 2),
        Step::Note(0, i),
    ];
    for step in steps {
        Case::run("a column not below columns", busy(), step).answer(out)?;
    }
    Ok(())
}

pub fn cases(out: io::Stdout) -> io::Result<()> {
    packets(out)?;
    counts(out)?;
    for i in [3, 16, usize::MAX] {
        parameters(out, i)?;
    }
    Ok(())
}
