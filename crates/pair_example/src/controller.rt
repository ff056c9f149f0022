// A controller at an end of the line: the core of one column, and what it holds between two calls.
use column::error::Refusal;
use column::frame::read_frame;
use column::outcome::{Answer, Outcome};
use column::packet::{Packet, receiver};
use column::state::{Column, fresh};
use column::step::{ack, order, send, take};
use column::tree::Tree;

#[derive(Clone, Copy)]
pub struct Controller {
    tree: Tree,
    pub number: usize,
    pub column: Column,
}

impl Controller {
    // Column `number` as it begins in a bank of the tree.
    pub fn new(tree: Tree, number: usize) -> Result<Controller, Refusal> {
        let column = fresh(tree, number)?;
        Ok(Controller {
            tree,
            number,
            column,
        })
    }

    // The column is what a step made of it; the answer is the step's.
    fn after(&mut self, outcome: Outcome) -> Answer {
        self.column = outcome.column;
        outcome.answer
    }

    pub fn order(&mut self, doors: u64) -> Result<Answer, Refusal> {
        let outcome = order(self.tree, self.number, self.column, doors)?;
        Ok(self.after(outcome))
    }

    pub fn send(&mut self) -> Result<Answer, Refusal> {
        let outcome = send(self.tree, self.number, self.column)?;
        Ok(self.after(outcome))
    }

    pub fn ack(&mut self) -> Result<Answer, Refusal> {
        let outcome = ack(self.tree, self.number, self.column)?;
        Ok(self.after(outcome))
    }

    // A packet for another column is passed over.
    pub fn take(&mut self, p: Packet) -> Result<(), Refusal> {
        if receiver(p) == self.number {
            let outcome = take(self.tree, self.number, self.column, p)?;
            self.after(outcome);
        }
        Ok(())
    }

    // Every packet of the frame that is for the column is taken.
    pub fn receive(&mut self, frame: &[u8]) -> Result<(), Refusal> {
        let read = read_frame(frame)?;
        for packet in &read.packets[..read.count] {
            self.take(*packet)?;
        }
        Ok(())
    }
}
