// What an accepted step makes of a column.
ghost use Rattle.std.specs.Prelude.{false, ◌≡◌, [], ◌∷◌};
ghost use Rattle.column.specs.Steps.{stepped, accepted};

use crate::packet::Packet;
use crate::state::Column;

#[derive(Clone, Copy)]
pub enum Answer {
    // No packet is to be put.
    Done,
    // This packet is to be put.
    Put(Packet),
    // A take that leaves its packet in its place; this packet is to be put.
    Left(Packet),
}

// The column after a step, and what the step answers.
#[derive(Clone, Copy)]
pub struct Outcome {
    pub column: Column,
    pub answer: Answer,
}

impl Outcome {
    // The column, and no packet to put.
    pub fn done(column: Column) -> Outcome
        ensures { stepped result ≡ accepted column [] false }
    {
        Outcome {
            column,
            answer: Answer::Done,
        }
    }

    // The column, and a packet to put.
    pub fn putting(column: Column, p: Packet) -> Outcome
        ensures { stepped result ≡ accepted column (p ∷ []) false }
    {
        Outcome {
            column,
            answer: Answer::Put(p),
        }
    }
}
