// Row 4 of the columns: each fault alone, with a step that is accepted without it.
use crate::case::{Case, strip};
use crate::state::{C0, C1, C2, C3, State, acknowledgement, busy, halted, member, quiet, root};
use bank::bank::Step;
use column::state::Column;
use std::io;

// A send of column 0, where column i is c beside those of a busy bank.
fn sent(out: io::Stdout, name: &str, i: usize, c: Column) -> io::Result<()> {
    Case::run(name, busy().with_column(i, c), Step::Send(0)).answer(out)
}

// Column i is c but for a fourth column in one of its sets.
fn strangers(out: io::Stdout, whose: &str, i: usize, c: Column) -> io::Result<()> {
    let send = c.send | C3;
    let awaited = c.awaited | C3;
    let owed = c.owed | C3;
    let noted = c.noted | C3;
    let faulty = [
        ("send", Column { send, ..c }),
        ("awaited", Column { awaited, ..c }),
        ("owed", Column { owed, ..c }),
        ("noted", Column { noted, ..c }),
    ];
    for (set, d) in faulty {
        print!(out; "3 in {set} of ")?;
        sent(out, whose, i, d)?;
    }
    Ok(())
}

fn owing_themselves(out: io::Stdout) -> io::Result<()> {
    let other = "another running column owes itself";
    let stopped = halted(member(0, 0, C1 | C2, 0));
    sent(out, "the acting column owes itself", 0, root(C1, C2, C0, 0))?;
    sent(out, other, 1, member(C2, 0, C0 | C1, 0))?;
    sent(out, "a halted column owes itself", 2, stopped)
}

fn goals(out: io::Stdout) -> io::Result<()> {
    let s = quiet().with_column(1, member(C2, 0, C0, 0));
    let whole = s.with_column(0, halted(root(0, 0, 0, 0)));
    let own = s.with_column(0, halted(member(0, 0, 0, 0)));
    let send = Step::Send(1);
    sent(
        out,
        "the running root's goal is own",
        0,
        member(C1, C2, 0, 0),
    )?;
    Case::run("the halted root's goal is whole", whole, send).effect(out, 1)?;
    Case::run("the halted root's goal is own", own, send).answer(out)
}

// Each of document 01's steps but send is accepted: send of column 0 and order do not go together, so send has a state of its own, `sending`.
pub fn ready() -> State {
    quiet()
        .with_column(0, root(0, 0, C1, 0))
        .with_column(1, member(0, 0, C0, C0))
        .with_words(0, acknowledgement(1, 0, 5), 0)
        .with_count(1)
}

pub fn sending(s: State) -> State {
    s.with_column(0, root(C1, 0, C1, 0))
}

fn every_step(out: io::Stdout, name: &str, s: State) -> io::Result<()> {
    Case::run(name, s, Step::Order(9)).effect(out, 0)?;
    Case::run(name, sending(s), Step::Send(0)).effect(out, 0)?;
    Case::run(name, s, Step::Take(0)).effect(out, 0)?;
    for step in [Step::Ack(1), Step::All(1), Step::Note(1, 2), strip(C1)] {
        Case::run(name, s, step).effect(out, 1)?;
    }
    Ok(())
}

pub fn cases(out: io::Stdout) -> io::Result<()> {
    let bad = "ready but 3 in noted of a halted column";
    let fault = ready().with_column(2, halted(member(0, 0, C1, C3)));
    let highest = halted(member(0, 0, C1, 32768));
    let stopped = halted(member(0, 0, C1, 0));
    Case::run("no fault", busy(), Step::Send(0)).effect_at(out, 0, 0)?;
    strangers(out, "the acting column", 0, root(C1, C2, 0, 0))?;
    strangers(out, "another running column", 1, member(C2, 0, C0, 0))?;
    strangers(out, "a halted column", 2, stopped)?;
    sent(out, "15 in noted of a halted column", 2, highest)?;
    owing_themselves(out)?;
    goals(out)?;
    every_step(out, "ready", ready())?;
    every_step(out, bad, fault)
}
