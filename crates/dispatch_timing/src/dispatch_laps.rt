// Laps of the dispatcher: the same bank brought to rest in every lap. The tree comes from the input, so that no parent is known when the program
// is compiled.
ghost use Rattle.std.specs.Prelude.{◌<◌};

use bank::bank::{Bank, Network, Step, fresh};
use bank::dispatch::dispatch;
use bank::step::perform;
use column::tree::Tree;
use laps_timing::{fold, heap};

// More than any bank of sixteen columns needs.
const LIMIT: usize = 9999;

// The columns of the largest bank.
const MOST: usize = 16;

// The root as a set.
const ROOT: u32 = 1;

const DOORS: u64 = 513;

// A bank with the network that it is lent, and its last column.
#[derive(Drop)]
struct Started {
    bank: Bank,
    last: usize,
    network: Network,
    ghost inside: { last < 16 },
}

impl Started {
    // A fresh bank of these columns; of a tree that is refused, one in which nobody runs.
    fn new(tree: Tree) -> Started {
        Started {
            bank: fresh(tree).unwrap_or(Bank::empty(tree)),
            last: tree.columns.clamp(1, MOST) - 1,
            network: Network::EMPTY,
        }
    }

    // A step that is refused leaves the bank as it was.
    fn step(&mut self, step: Step) {
        if let Ok(bank) = perform(self.bank, step, &mut self.network) {
            self.bank = bank;
        }
    }

    // Column i sends as often as it can: to the root's children in place of the root, itself among them.
    fn send_all(&mut self, i: usize) {
        for _ in 0..MOST + 1 {
            self.step(Step::Send(i));
        }
    }

    // Every column but the root takes over and sends to everyone, after what it does first.
    fn take_over<F: Fn(&mut Started, usize)>(&mut self, first: F)
        requires { F.IsAlwaysCallable first }
    {
        for i in 1..self.last + 1 {
            first(self, i);
            self.step(Step::All(i));
            self.send_all(i);
        }
    }

    // The root has just been given an order.
    fn ordered(tree: Tree) -> Started {
        let mut started = Started::new(tree);
        started.step(Step::Order(DOORS));
        started
    }

    // The root has halted with its order under way. Every column but the root has noted that and taken over, under number 0, then taken the order, which is
    // the oldest packet, and taken over once more: 420 packets are under way where the bank has 16 columns.
    fn crowded(tree: Tree) -> Started {
        let mut started = Started::ordered(tree);
        started.send_all(0);
        started.step(Step::Halt(ROOT));
        started.take_over(|s, i| s.step(Step::Note(i, 0)));
        started.take_over(|s, i| {
            s.step(Step::Take(0));
            s.step(Step::Ack(i));
        });
        started
    }

    // One lap: the steps taken, how many packets are left, and the last column's record.
    fn lap(&self, lap: u64) -> u64 {
        let mut bank = self.bank;
        let mut network = self.network;
        bank.columns[0].doors = lap;
        let (steps, after) = match dispatch(bank, LIMIT, &mut network) {
            Ok(done) => (done.steps, done.bank),
            Err(_) => (0, bank),
        };
        let c = after.columns[self.last];
        fold(
            fold(steps as u64, after.count as u64),
            c.number as u64 + c.doors % 65536,
        )
    }
}

// Letter D: an order that is served, by a heap of columns. Any other: a crowded bank, whose root is the parent of all. Fewer columns than 1 are 1, more than
// 16 are 16. What was read is a space, and so 0: what is in the input no compiler knows.
pub fn run(letter: u8, read: u8, columns: u64, laps: u64) -> u64 {
    let read = read % 8;
    let tree = heap(columns.clamp(1, 16) as usize, read);
    let up = [read; 16];
    let started = match letter {
        b'D' => Started::ordered(tree),
        _ => Started::crowded(Tree { up, ..tree }),
    };
    let mut sum: u64 = 0;
    for lap in 0..laps {
        sum = fold(sum, started.lap(lap));
    }
    sum
}
