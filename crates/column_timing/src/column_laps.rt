// Laps of one step of a lone column. The root and the trees come from the input, so that no column and no parent is known when the program is compiled.
// Each step is called at one place, as by a controller: of one that is called at two, the column and the outcome go through memory.
ghost use Rattle.std.specs.Prelude.{◌<◌};

use column::error::Refusal;
use column::outcome::Outcome;
use column::packet::{Number, Packet};
use column::state::Column;
use column::step::{ack, all, halt, note, order, send, take};
use column::tree::Tree;
use laps_timing::{fold, heap};

// As many trees as laps have in turn: where there are two, a compiler makes the tests of both once for all.
const TREES: usize = 4;

// A lap's tree, the root that was read, and which lap it is.
#[derive(Clone, Copy)]
struct Lap {
    tree: Tree,
    root: usize,
    number: u64,
    ghost inside: { root < 8 },
}

// The column after a step; one that is refused leaves it as it was.
fn after(c: Column, step: Result<Outcome, Refusal>) -> Column {
    match step {
        Ok(outcome) => outcome.column,
        Err(_) => c,
    }
}

impl Lap {
    // Field by field: how the core makes a column untested is for the bank alone, and a constant to take the other fields from would have as many lines.
    fn column(&self, whole: bool) -> Column {
        Column {
            running: true,
            number: (self.number % 1000) as Number,
            doors: self.number,
            send: 0,
            awaited: 0,
            owed: 0,
            noted: 0,
            whole,
            sender: 0,
            mask: 0,
            pending: 0,
        }
    }

    fn ordered(&self) -> Column {
        let c = self.column(true);
        after(c, order(self.tree, self.root, c, self.number))
    }

    // A message is put; or there is nobody to send to, and the send is refused.
    fn sent(&self, puts: bool) -> Column {
        let mut c = self.column(true);
        if puts {
            c.send = 6;
        }
        after(c, send(self.tree, self.root, c))
    }

    // A message to a child of the root, or an acknowledgement to the root.
    fn received(&self, message: bool) -> Column {
        let mut i = self.root;
        let mut c = self.column(!message);
        let mut p = Packet::Message {
            from: 0,
            to: 1,
            number: 1000,
            doors: self.number,
        };
        if message {
            i += 1;
        } else {
            c.awaited = 6;
            p = Packet::Acknowledgement {
                from: 2,
                to: 0,
                number: c.number,
            };
        }
        after(c, take(self.tree, i, c, p))
    }

    // This and the next two set another field each, which no parameter can name, and call another step.
    fn acknowledged(&self) -> Column {
        let c = Column {
            owed: 9,
            ..self.column(false)
        };
        after(c, ack(self.tree, self.root + 2, c))
    }

    fn took_over(&self) -> Column {
        let c = Column {
            noted: 1,
            ..self.column(false)
        };
        after(c, all(self.tree, self.root + 3, c))
    }

    fn noted(&self) -> Column {
        let c = Column {
            awaited: 6,
            ..self.column(true)
        };
        after(c, note(self.tree, self.root, c, self.root + 1))
    }

    fn halted(&self) -> Column {
        let c = self.column(false);
        after(c, halt(self.tree, self.root + 5, c))
    }

    // The column after the step of a letter. A lap looks at the letter, as it does in C: with a closure for each step every step has a loop of its own, whose
    // laps take 10 to 40 instructions less, and the figures would compare other laps.
    fn step(&self, letter: u8) -> Column {
        match letter {
            b'o' => self.ordered(),
            b'm' | b'e' => self.received(letter == b'm'),
            b'a' => self.acknowledged(),
            b'l' => self.took_over(),
            b'n' => self.noted(),
            b'h' => self.halted(),
            _ => self.sent(letter == b's'),
        }
    }
}

// The doors are the lap's own and the goal follows from the step: what tells steps apart is in the number, the sets and whether it runs.
fn folded(sum: u64, c: Column) -> u64 {
    let sets = c.send as u64 + c.awaited as u64 + c.owed as u64 + c.noted as u64;
    fold(sum, c.number as u64 + sets + u64::from(c.running))
}

// The trees differ from lap to lap, and are found in memory, so that nothing of a tree is found out once for all laps.
fn trees(read: u8) -> [Tree; TREES] {
    let usual = heap(16, read);
    let mut other = usual;
    other.up[15] = usual.up[14];
    let mut trees = [usual; TREES];
    // A place that is read, so that no compiler knows which tree is where.
    trees[read as usize % TREES] = other;
    trees
}

// Laps of the step of a letter. What was read is a space, and so 0: what is in the input no compiler knows.
pub fn run(letter: u8, read: u8, laps: u64) -> u64 {
    let read = read % 8;
    let trees = trees(read);
    let mut sum: u64 = 0;
    for number in 0..laps {
        let lap = Lap {
            tree: trees[number as usize % TREES],
            root: read as usize,
            number,
        };
        sum = folded(sum, lap.step(letter));
    }
    sum
}
