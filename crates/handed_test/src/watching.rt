// Whom columns watch: what banks answer that watch who sent a record, beside the same banks that watch the root.
use crate::case::Case;
use crate::state::{
    C0, C1, C2, State, TREE, busy, halted, member, message, numbered, quiet, resting, root,
};
use bank::bank::Step;
use column::packet::HIGHEST;
use column::state::Column;
use column::tree::Tree;
use std::io;

fn sent_by(c: Column, sender: usize) -> Column {
    Column { sender, ..c }
}

fn watching(s: State) -> State {
    s.with_tree(Tree {
        watch: true,
        ..TREE
    })
}

// The same step of a bank that watches the root and of one that watches senders.
fn both(out: io::Stdout, name: &str, s: State, x: Step, i: usize) -> io::Result<()> {
    print!(out; "watch=root, ")?;
    Case::run(name, s, x).effect(out, i)?;
    print!(out; "watch=sender, ")?;
    Case::run(name, watching(s), x).effect(out, i)
}

// Row 4: "a column number .. not below columns", whoever is watched.
fn senders(out: io::Stdout) -> io::Result<()> {
    let other = busy().with_column(1, sent_by(member(C2, 0, C0, 0), 3));
    let stopped = busy().with_column(2, sent_by(halted(member(0, 0, C1, 0)), 255));
    let itself = busy().with_column(0, sent_by(root(C1, C2, 0, 0), 2));
    let states = [
        ("column 3 sent a record", other),
        ("column 3 sent a record, senders watched", watching(other)),
        ("column 255 sent a halted one's", stopped),
        (
            "column 255 sent a halted one's, senders watched",
            watching(stopped),
        ),
        ("column 2 sent the root's", itself),
    ];
    for (name, s) in states {
        Case::run(name, s, Step::Send(0)).answer(out)?;
    }
    Ok(())
}

// A message to the running root is row 4's where the root is watched.
fn messages(out: io::Stdout) -> io::Result<()> {
    let numbers = [
        ("a message to the root, its number", 5),
        ("a message to the root, a lower number", 4),
        ("a message to the root, a higher number", 6),
    ];
    for (name, number) in numbers {
        let s = quiet()
            .with_count(1)
            .with_words(0, message(1, 0, number), 9);
        both(out, name, s, Step::Take(0), 0)?;
    }
    Ok(())
}

// One to the halted root is row 4's under both watches; one to the running root that a bank puts itself is taken.
fn sent_messages(out: io::Stdout) -> io::Result<()> {
    let stopped = quiet()
        .with_count(1)
        .with_column(0, halted(root(0, 0, 0, 0)))
        .with_words(0, message(1, 0, 5), 9);
    let sends = quiet().with_column(1, member(C0, 0, 0, 0));
    let to_halted = "a message to the halted root, senders watched";
    let to_running = "to send to the running root, senders watched";
    let was_put = "a message to the root was put, senders watched";
    Case::run(to_halted, watching(stopped), Step::Send(1)).answer(out)?;
    let put = Case::run(to_running, watching(sends), Step::Send(1));
    put.effect_at(out, 1, 0)?;
    Case::run(was_put, put.after, Step::Take(0)).effect(out, 0)
}

fn acknowledging(out: io::Stdout) -> io::Result<()> {
    let sends = quiet().with_column(0, root(C1, 0, C1, 0));
    let awaits = quiet().with_column(0, root(0, C1, C1, 0));
    let idle = quiet().with_column(0, root(0, 0, C1, 0));
    let taken_over = quiet().with_column(1, root(C2, C2, C0, 0));
    both(out, "ack of a root that sends", sends, Step::Ack(0), 0)?;
    both(out, "ack of a root that awaits", awaits, Step::Ack(0), 0)?;
    both(out, "ack of an idle root", idle, Step::Ack(0), 0)?;
    both(
        out,
        "ack of one that has taken over",
        taken_over,
        Step::Ack(1),
        1,
    )
}

fn ordering(out: io::Stdout) -> io::Result<()> {
    let owes = root(0, 0, C1, 0);
    let columns = [
        ("an order to a root that owes", owes),
        (
            "an order to one that owes, at the highest number",
            numbered(owes, HIGHEST),
        ),
    ];
    for (name, c) in columns {
        both(out, name, quiet().with_column(0, c), Step::Order(9), 0)?;
    }
    Ok(())
}

fn taking_over(out: io::Stdout) -> io::Result<()> {
    let columns = [
        ("all with the root noted", member(0, 0, 0, C0)),
        ("all with its sender noted", member(0, 0, 0, C2)),
    ];
    for (name, c) in columns {
        let s = quiet().with_column(1, sent_by(c, 2));
        both(out, name, s, Step::All(1), 1)?;
    }
    Ok(())
}

// "the column copied from": column 2 comes back, and has its record from column 0, which halts.
fn returning(out: io::Stdout) -> io::Result<()> {
    let back = Case::run("senders watched", watching(resting()), Step::Back(2));
    back.effect(out, 2)?;
    let mut s = back.after;
    for (step, i) in [(Step::Halt(1), 0), (Step::Note(2, 0), 2), (Step::All(2), 2)] {
        let next = Case::run("senders watched, back", s, step);
        next.effect(out, i)?;
        s = next.after;
    }
    Ok(())
}

pub fn cases(out: io::Stdout) -> io::Result<()> {
    senders(out)?;
    messages(out)?;
    sent_messages(out)?;
    acknowledging(out)?;
    ordering(out)?;
    taking_over(out)?;
    returning(out)
}
