// The parts of a line. Each type prints other words: its impl is like the next in form alone.
use crate::state::{ACKNOWLEDGING, State};
use bank::bank::Step;
use column::error::Refusal;
use column::packet::{CAPACITY, NUMBERS};
use column::state::Column;
use std::fmt;

// A set's members in braces. pair_example has a set of its own; its print.rt says why.
#[derive(Drop)]
pub struct Set(pub u32);

impl fmt::Display for Set {
    fn fmt<W: fmt::Write>(&self, f: &mut fmt::Formatter<W>) -> fmt::Result {
        let set = self.0;
        let members = (0..32u32).filter(|i| (set >> i) % 2 == 1);
        write!(f, "{{")?;
        for (before, member) in members.enumerate() {
            if 0 < before {
                write!(f, ",")?;
            }
            write!(f, "{member}")?;
        }
        write!(f, "}}")
    }
}

// By what a call is refused, if it is.
#[derive(Drop)]
pub struct Answered(pub Option<Refusal>);

impl fmt::Display for Answered {
    fn fmt<W: fmt::Write>(&self, f: &mut fmt::Formatter<W>) -> fmt::Result {
        match self.0 {
            None => write!(f, "ok"),
            Some(refusal) => write!(f, "refused {}", refusal.number()),
        }
    }
}

// A step's name and what it names.
#[derive(Drop)]
pub struct Named(pub Step);

impl fmt::Display for Named {
    fn fmt<W: fmt::Write>(&self, f: &mut fmt::Formatter<W>) -> fmt::Result {
        match self.0 {
            Step::Order(doors) => write!(f, "order {doors}"),
            Step::Send(i) => write!(f, "send {i}"),
            Step::Take(place) => write!(f, "take {place}"),
            Step::Ack(i) => write!(f, "ack {i}"),
            Step::All(i) => write!(f, "all {i}"),
            Step::Note(i, j) => write!(f, "note {i} {j}"),
            Step::Halt(set) => write!(f, "halt {}", Set(set)),
            Step::Back(j) => write!(f, "back {j}"),
            Step::Write(i, offset, value) => write!(f, "write {i} {offset} {value}"),
        }
    }
}

// What a column holds.
#[derive(Drop)]
struct Held(Column);

impl fmt::Display for Held {
    fn fmt<W: fmt::Write>(&self, f: &mut fmt::Formatter<W>) -> fmt::Result {
        let c = self.0;
        let runs = if c.running { "runs" } else { "halted" };
        let goal = if c.whole { "whole" } else { "own" };
        write!(f, "{runs} number {} doors {}", c.number, c.doors)?;
        write!(f, " send {}", Set(u32::from(c.send)))?;
        write!(f, " awaited {}", Set(u32::from(c.awaited)))?;
        write!(f, " owed {}", Set(u32::from(c.owed)))?;
        write!(f, " noted {}", Set(u32::from(c.noted)))?;
        write!(f, " {goal} sender {}", c.sender)?;
        write!(f, " mask {} pending {}", c.mask, c.pending)
    }
}

// A packet's head.
#[derive(Drop)]
struct Head(u64);

impl fmt::Display for Head {
    fn fmt<W: fmt::Write>(&self, f: &mut fmt::Formatter<W>) -> fmt::Result {
        let head = self.0;
        let kind = if head < ACKNOWLEDGING {
            "message"
        } else {
            "acknowledgement"
        };
        let from = head / (NUMBERS * 256) % 256;
        let to = head / NUMBERS % 256;
        write!(f, "{kind} {from}>{to} number {}", head % NUMBERS)
    }
}

// The column in a place of the bank, if there is such a place.
#[derive(Drop)]
pub struct ColumnAt<'a>(pub &'a State, pub usize);

impl fmt::Display for ColumnAt<'_> {
    fn fmt<W: fmt::Write>(&self, f: &mut fmt::Formatter<W>) -> fmt::Result {
        let i = self.1;
        if i < 16 {
            write!(f, ", column {i} {}", Held(self.0.bank.columns[i]))?;
        }
        Ok(())
    }
}

// The packet at a place of the network, if there is such a place.
#[derive(Drop)]
pub struct PacketAt<'a>(pub &'a State, pub usize);

impl fmt::Display for PacketAt<'_> {
    fn fmt<W: fmt::Write>(&self, f: &mut fmt::Formatter<W>) -> fmt::Result {
        let place = self.1;
        if place < CAPACITY {
            let doors = self.0.network.doors[place];
            let head = Head(self.0.network.heads[place]);
            write!(f, ", place {place} {head} doors {doors}")?;
        }
        Ok(())
    }
}
