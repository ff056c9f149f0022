// A case: one step on one state, and its line.
use crate::print::{Answered, ColumnAt, Named, PacketAt, Set};
use crate::same::{rewritten, same_from};
use crate::state::State;
use bank::bank::Step;
use bank::step::perform;
use std::{fmt, io};

// The step that halts the columns of a set.
pub fn strip(set: u16) -> Step {
    Step::Halt(set as u32)
}

#[derive(Drop)]
pub struct Case<'a> {
    name: &'a str,
    before: State,
    step: Step,
    answer: Answered,
    pub after: State,
}

// The beginning of a line: the name, the step, the answer, whether the state is as it was, and which columns are not.
impl fmt::Display for Case<'_> {
    fn fmt<W: fmt::Write>(&self, f: &mut fmt::Formatter<W>) -> fmt::Result {
        let answer = &self.answer;
        write!(f, "{}, {}: {answer}", self.name, Named(self.step))?;
        if self.before == self.after {
            return write!(f, ", unchanged");
        }
        let places = rewritten(&self.before.bank, &self.after.bank);
        write!(f, ", changed, rewritten {}", Set(u32::from(places)))
    }
}

impl Case<'_> {
    // The step, taken in the state.
    pub fn run(name: &str, before: State, step: Step) -> Case<'_> {
        let mut network = before.network;
        let given = perform(before.bank, step, &mut network);
        let bank = given.unwrap_or(before.bank);
        Case {
            name,
            before,
            step,
            answer: Answered(given.err()),
            after: State { bank, network },
        }
    }

    // Whether the tree and every word of both arrays from `first` on are as they were.
    pub fn keeps_from(&self, first: usize) -> bool {
        same_from(&self.before, &self.after, first)
    }

    // A line of the answer alone.
    pub fn answer(&self, out: io::Stdout) -> io::Result<()> {
        println!(out; "{self}")
    }

    // A line with the count and column i after the step.
    pub fn effect(&self, out: io::Stdout, i: usize) -> io::Result<()> {
        let column = ColumnAt(&self.after, i);
        println!(out; "{self}, count {}{column}", self.after.bank.count)
    }

    // The same with the packet at a place, whether it is taken or free, and the last packet.
    pub fn effect_at(&self, out: io::Stdout, i: usize, place: usize) -> io::Result<()> {
        let count = self.after.bank.count;
        let column = ColumnAt(&self.after, i);
        let packet = PacketAt(&self.after, place);
        print!(out; "{self}, count {count}{column}{packet}")?;
        if 0 < count {
            print!(out; "{}", PacketAt(&self.after, count - 1))?;
        }
        println!(out)
    }
}
