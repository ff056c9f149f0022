// What row 4 does not meet: states that no script reaches, and that are not refused.
use crate::case::{Case, strip};
use crate::members::{ready, sending};
use crate::state::{C0, C1, C2, State, busy, member, root};
use bank::bank::{Bank, Network, Step};
use column::packet::CAPACITY;
use column::state::Column;
use column::tree::Tree;
use std::io;

// Every place past the three columns and every word past the first packet's holds what row 4 would meet in a used one.
pub fn with_junk(s: State) -> State {
    let junk = Column {
        whole: true,
        sender: 255,
        ..member(65535, 65535, 65535, 65535)
    };
    let tree = Tree {
        up: [0, 0, 1, 99, 99, 99, 99, 99, 99, 99, 99, 99, 99, 99, 99, 99],
        first: [2, 0, 1, 99, 99, 99, 99, 99, 99, 99, 99, 99, 99, 99, 99, 99],
        ..s.bank.tree
    };
    let all = State {
        bank: Bank {
            tree,
            columns: [junk; 16],
            ..s.bank
        },
        network: Network {
            heads: [u64::MAX; CAPACITY],
            doors: [u64::MAX; CAPACITY],
        },
    };
    all.with_column(0, s.bank.columns[0])
        .with_column(1, s.bank.columns[1])
        .with_column(2, s.bank.columns[2])
        .with_words(0, s.network.heads[0], s.network.doors[0])
}

// A step of a state with at most one packet leaves the words from place 2 on.
fn kept(out: io::Stdout, s: State, x: Step) -> io::Result<()> {
    let c = Case::run("junk in unused places", s, x);
    let junk = if c.keeps_from(2) {
        "junk kept"
    } else {
        "junk lost"
    };
    println!(out; "{c}, count {}, {junk}", c.after.bank.count)
}

fn junk(out: io::Stdout) -> io::Result<()> {
    let s = with_junk(ready());
    kept(out, s, Step::Order(9))?;
    kept(out, sending(s), Step::Send(0))?;
    kept(out, s, Step::Take(0))?;
    kept(out, s, Step::Ack(1))?;
    kept(out, s, Step::All(1))?;
    kept(out, s, Step::Note(1, 2))?;
    kept(out, s, strip(C1))
}

fn packets(out: io::Stdout) -> io::Result<()> {
    let awaiting = busy().with_column(0, root(C1, C1 | C2, 0, 0));
    let from_halted = "an acknowledgement from a halted column";
    Case::run("an acknowledgement to the root", awaiting, Step::Take(0)).effect(out, 0)?;
    Case::run(from_halted, busy(), Step::Take(2)).effect(out, 0)?;
    Case::run("a message from a halted column", busy(), Step::Take(3)).effect(out, 1)
}

fn sets(out: io::Stdout) -> io::Result<()> {
    let sends = [
        ("a running column noted", root(C1, C2, 0, C1)),
        ("itself noted", root(C1, C2, 0, C0)),
        ("a column awaited and noted", root(C1, C2, 0, C2)),
        ("itself awaited", root(C1, C0 | C2, 0, 0)),
        ("to send to a column that is awaited", root(C1, C1, 0, 0)),
        ("to send to itself", root(C0 | C1, C2, 0, 0)),
    ];
    for (name, c) in sends {
        Case::run(name, busy().with_column(0, c), Step::Send(0)).effect(out, 0)?;
    }
    let s = busy().with_column(1, member(C1, 0, C0, C1));
    Case::run("to send to itself, which it has noted", s, Step::Send(1)).effect(out, 1)
}

// "If i has noted c, c's children join the set. Otherwise c is awaited and a message with i's record is put": to the root too. The
// packet is one that row 4 meets.
fn running_root(out: io::Stdout) -> io::Result<()> {
    let noted = busy().with_column(1, member(C0, 0, C0, C0));
    let unnoted = busy().with_column(1, member(C0, 0, C0, 0));
    let send = Step::Send(1);
    Case::run("to send to the running root, noted", noted, send).effect(out, 1)?;
    let put = Case::run("to send to the running root, not noted", unnoted, send);
    put.effect_at(out, 1, 0)?;
    for step in [Step::Send(0), Step::Take(0), strip(C0)] {
        Case::run("a message to the root was put", put.after, step).answer(out)?;
    }
    Ok(())
}

pub fn cases(out: io::Stdout) -> io::Result<()> {
    packets(out)?;
    sets(out)?;
    running_root(out)?;
    junk(out)
}
