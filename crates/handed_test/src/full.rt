// The network at 511 and at 512 packets: 9 where a packet would be put above 512, and nowhere else.
use crate::case::{Case, strip};
use crate::state::{C0, C1, C2, State, acknowledgement, member, message, quiet, root};
use bank::bank::Step;
use column::state::Column;
use std::io;

// Column i is c, beside idle ones. A place and what is put there: a struct of both would be made for one call and taken apart in it.
fn at(count: usize, i: usize, c: Column) -> State {
    quiet().with_column(i, c).filled(count)
}

fn line(out: io::Stdout, name: &str, s: State, step: Step, i: usize) -> io::Result<()> {
    print!(out; "{} packets, ", s.bank.count)?;
    Case::run(name, s, step).effect_at(out, i, 0)
}

fn sends(out: io::Stdout, n: usize) -> io::Result<()> {
    let columns = [
        ("c is i", root(C0, 0, 0, 0)),
        ("c noted", root(C1, 0, 0, C1)),
        ("c halted and not noted", root(C2, 0, 0, 0)),
        ("c running", root(C1, 0, 0, 0)),
    ];
    for (name, c) in columns {
        line(out, name, at(n, 0, c), Step::Send(0), 0)?;
    }
    Ok(())
}

fn acks(out: io::Stdout, n: usize) -> io::Result<()> {
    let halted_owed = at(n, 1, member(0, 0, C2, 0));
    let running_owed = at(n, 1, member(0, 0, C0, 0));
    line(out, "a halted one owed", halted_owed, Step::Ack(1), 1)?;
    line(out, "a running one owed", running_owed, Step::Ack(1), 1)
}

// A packet for column i at place 0 is taken, of n under way, which is no length of the list.
fn taken(out: io::Stdout, n: usize, packets: &[(&str, usize, Column, u64)]) -> io::Result<()> {
    for (name, i, c, head) in packets {
        let s = at(n, *i, *c).with_words(0, *head, 9);
        line(out, name, s, Step::Take(0), *i)?;
    }
    Ok(())
}

fn takes(out: io::Stdout, n: usize) -> io::Result<()> {
    let awaiting = root(0, C1, 0, 0);
    let idle = member(0, 0, 0, 0);
    let packets = [
        ("an acknowledgement", 0, awaiting, acknowledgement(1, 0, 5)),
        ("an equal number", 1, idle, message(0, 1, 5)),
        (
            "a lower number from a running one",
            1,
            idle,
            message(0, 1, 4),
        ),
        (
            "a lower number from a halted one",
            1,
            idle,
            message(2, 1, 4),
        ),
    ];
    taken(out, n, &packets)
}

fn takes_higher(out: io::Stdout, n: usize) -> io::Result<()> {
    let nobody = root(C0, C2, 0, C2);
    let runs = member(C2, 0, C0 | C2, 0);
    let stopped = member(C2, 0, C2, 0);
    let higher = message(0, 1, 6);
    let packets = [
        ("a higher number, nobody owed", 1, nobody, higher),
        ("a higher number, the lowest owed runs", 1, runs, higher),
        (
            "a higher number, the lowest owed is halted",
            1,
            stopped,
            higher,
        ),
    ];
    taken(out, n, &packets)
}

// None of these puts a packet.
fn others(out: io::Stdout, n: usize) -> io::Result<()> {
    let idle = at(n, 1, member(0, 0, 0, 0));
    let noted = at(n, 1, member(0, 0, 0, C0));
    line(out, "idle", at(n, 0, root(0, 0, 0, 0)), Step::Order(9), 0)?;
    line(out, "the root noted", noted, Step::All(1), 1)?;
    line(out, "2 not noted", idle, Step::Note(1, 2), 1)?;
    line(out, "no packet to it", idle, strip(C1), 1)
}

// The packets behind the one that is taken move up, and the answer is behind them all.
fn places(out: io::Stdout) -> io::Result<()> {
    let full = at(512, 1, member(0, 0, 0, 0));
    let middle = full
        .with_words(255, message(0, 1, 4), 9)
        .with_words(256, acknowledgement(1, 0, 8), 0);
    let last = full.with_words(511, message(0, 1, 4), 9);
    let takes = [
        ("a lower number at place 255", middle, 255, 255),
        ("a lower number at place 511", last, 511, 510),
    ];
    for (name, s, place, shown) in takes {
        print!(out; "512 packets, ")?;
        Case::run(name, s, Step::Take(place)).effect_at(out, 1, shown)?;
    }
    Ok(())
}

pub fn cases(out: io::Stdout) -> io::Result<()> {
    for n in [511, 512] {
        sends(out, n)?;
        acks(out, n)?;
        takes(out, n)?;
        takes_higher(out, n)?;
        others(out, n)?;
    }
    places(out)
}
