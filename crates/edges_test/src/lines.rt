// Lines on a fresh bank of three columns: "`take=512` is 10, `take=1000` is 13"; "The limit numeral has up to four digits, no leading zero".
use crate::print::Refused;
use bank::bank::{Network, Step, fresh};
use bank::step::perform;
use column::error::Refusal;
use column::tree::{ASCENDING, Tree};
use script::line::{Command, parse};
use std::io;

const TREE: Tree = Tree {
    columns: 3,
    root: 0,
    up: [0, 0, 1, 0, 0, 0, 0, 0, 0, 0, 0, 0, 0, 0, 0, 0],
    first: ASCENDING,
    watch: false,
};

fn performed(step: Step) -> Result<(), Refusal> {
    let mut network = Network::EMPTY;
    let begun = fresh(TREE)?;
    perform(begun, step, &mut network)?;
    Ok(())
}

fn line(out: io::Stdout, text: &str) -> io::Result<()> {
    print!(out; "line {text}: ")?;
    match parse(text.as_bytes()) {
        Some(Command::Perform(step)) => match performed(step) {
            Ok(()) => println!(out; "ok"),
            Err(refusal) => println!(out; "{}", Refused(refusal)),
        },
        Some(Command::List(_)) => println!(out; "a list"),
        Some(Command::Dispatch(limit)) => println!(out; "a run of at most {limit}"),
        None => println!(out; "{}", Refused(Refusal::MalformedLine)),
    }
}

pub fn cases(out: io::Stdout) -> io::Result<()> {
    let takes = [
        "take=0",
        "take=9",
        "take=10",
        "take=99",
        "take=100",
        "take=511",
        "take=512",
        "take=513",
        "take=999",
        "take=1000",
        "take=0999",
        "take=00",
        "take=",
        "take=5a",
    ];
    let others = [
        "send=99",
        "send=100",
        "run=0",
        "run=9999",
        "run=10000",
        "run=01",
        "run=",
        "jump=1",
        "",
    ];
    for text in takes {
        line(out, text)?;
    }
    for text in others {
        line(out, text)?;
    }
    Ok(())
}
