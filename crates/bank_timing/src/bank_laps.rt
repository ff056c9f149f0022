// Laps of a bank's steps. The root and the tree come from the input, so that no column and no parent is known when the program is compiled.
ghost use Rattle.std.specs.Prelude.{◌<◌};

use bank::bank::{Bank, Network, fresh};
use bank::step::{halt, note, send, take};
use column::error::Refusal;
use laps_timing::{fold, heap};

// Column 15, and columns 3 to 15.
const LAST: u32 = 32768;

const STRIP: u32 = 65528;

// A bank with the network that it is lent, and the root that was read.
#[derive(Drop)]
struct Stepped {
    bank: Bank,
    root: usize,
    network: Network,
    ghost inside: { root < 8 },
}

impl Stepped {
    // A fresh bank in which column 2 is halted; of a tree that is refused, one in which nobody runs.
    fn new(columns: usize, read: u8) -> Stepped
        requires { read < 8 }
    {
        let tree = heap(columns, read);
        let mut bank = fresh(tree).unwrap_or(Bank::empty(tree));
        bank.columns[2].running = false;
        Stepped {
            bank,
            root: read as usize,
            network: Network::EMPTY,
        }
    }

    // The bank is what a step made of it; one that is refused leaves it as it was. The steps below differ in the fields that
    // they set, which no parameter can name, and in what they call. Through `perform` a lap would choose its step as well.
    fn after(&mut self, step: Result<Bank, Refusal>) {
        if let Ok(bank) = step {
            self.bank = bank;
        }
    }

    // The root sends a message with the lap as its doors to column 1.
    fn send(&mut self, lap: u64) {
        self.bank.columns[self.root].send = 2;
        self.bank.columns[self.root].doors = lap;
        let sent = send(self.bank, self.root, &mut self.network);
        self.after(sent);
    }

    // One packet is put and the oldest is taken: as many are under way as before.
    fn turn(&mut self, lap: u64) {
        self.send(lap);
        let taken = take(self.bank, self.root, &mut self.network);
        self.after(taken);
    }

    // The root awaits column 2, which is halted, and has noted nobody; it notes that one.
    fn note(&mut self) {
        let root = self.root;
        self.bank.columns[root].send = 0;
        self.bank.columns[root].awaited = 4;
        self.bank.columns[root].noted = 0;
        let noted = note(self.bank, root, root + 2, &mut self.network);
        self.after(noted);
    }

    // This bank loses the columns of a set, none of which a packet is for.
    fn halt(&mut self, bank: &Bank, set: u32, lap: u64) {
        self.bank = *bank;
        self.bank.columns[self.root].doors = lap;
        let halted = halt(self.bank, set, &mut self.network);
        self.after(halted);
    }

    // What a lap changes: the root's sets, whom column 1 owes, whether columns 3 and 15 run, how many packets there are, and the oldest one's doors.
    fn folded(&self, sum: u64) -> u64 {
        let columns = &self.bank.columns;
        let c = columns[self.root];
        let d = columns[self.root + 1];
        let sets = c.send as u64 + c.awaited as u64 + c.noted as u64 + d.owed as u64;
        let packets = self.bank.count as u64 % 65536 + self.network.doors[0] % 65536;
        let third = columns[self.root + 3].running;
        let last = columns[15 - self.root].running;
        fold(
            fold(fold(sum, sets + packets), u64::from(third)),
            u64::from(last),
        )
    }

    // The sum of laps of a step, of each what it left.
    fn sum<F: Fn(&mut Stepped, u64)>(&mut self, laps: u64, step: F) -> u64
        requires { F.IsAlwaysCallable step }
    {
        let mut sum: u64 = 0;
        for lap in 0..laps {
            step(self, lap);
            sum = self.folded(sum);
        }
        sum
    }
}

// Letter N: notes. H: halts of the last of sixteen columns. S: halts of all of them but the first three. Any other: a packet put and one
// taken, in turn. What was read is a space, and so 0: what is in the input no compiler knows.
pub fn run(letter: u8, read: u8, columns: u64, packets: u64, laps: u64) -> u64 {
    let mut stepped = Stepped::new(columns as usize, read % 8);
    for packet in 0..packets {
        stepped.send(packet);
    }
    let bank = stepped.bank;
    match letter {
        b'N' => stepped.sum(laps, |s, _| s.note()),
        b'H' => stepped.sum(laps, |s, lap| s.halt(&bank, LAST, lap)),
        b'S' => stepped.sum(laps, |s, lap| s.halt(&bank, STRIP, lap)),
        _ => stepped.sum(laps, |s, lap| s.turn(lap)),
    }
}
