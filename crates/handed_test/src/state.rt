// A bank with the network that it is lent, as a caller may hand them in, and the parts that the cases are made of. Unless a case says
// otherwise the tree is that of three columns, 1 the child of root 0 and 2 the child of 1, and column 2 is halted.
use bank::bank::{Bank, Network};
use column::packet::{CAPACITY, NUMBERS, Number};
use column::state::Column;
use column::tree::{ASCENDING, Tree};

#[derive(Clone, Copy, PartialEq, Eq)]
pub struct State {
    pub bank: Bank,
    pub network: Network,
}

impl State {
    // The state with this column in place i, if there is such a place.
    pub fn with_column(mut self, i: usize, c: Column) -> State {
        if i < 16 {
            self.bank.columns[i] = c;
        }
        self
    }

    // The state with another count of packets.
    pub fn with_count(mut self, count: usize) -> State {
        self.bank.count = count;
        self
    }

    // The state with another tree.
    pub fn with_tree(mut self, tree: Tree) -> State {
        self.bank.tree = tree;
        self
    }

    // The state with a packet of these words at a place, if there is such a place.
    pub fn with_words(mut self, place: usize, head: u64, doors: u64) -> State {
        if place < CAPACITY {
            self.network.heads[place] = head;
            self.network.doors[place] = doors;
        }
        self
    }

    // Every place of both arrays is taken, whatever the count: acknowledgements of an older number to the root.
    pub fn filled(self, count: usize) -> State {
        State {
            network: Network {
                heads: [acknowledgement(1, 0, 3); CAPACITY],
                doors: [3; CAPACITY],
            },
            ..self.with_count(count)
        }
    }
}

// The sets of one column each. C3 has a member that is not below the columns.
pub const C0: u16 = 1;

pub const C1: u16 = 2;

pub const C2: u16 = 4;

pub const C3: u16 = 8;

pub const TREE: Tree = Tree {
    columns: 3,
    root: 0,
    up: [0, 0, 1, 0, 0, 0, 0, 0, 0, 0, 0, 0, 0, 0, 0, 0],
    first: ASCENDING,
    watch: false,
};

// A running column, not the root, with nothing to do. The record of every column is order 5 with doors 7. On every page are two bits asked for,
// and pending one that no step sets.
const IDLE: Column = Column {
    running: true,
    number: 5,
    doors: 7,
    send: 0,
    awaited: 0,
    owed: 0,
    noted: 0,
    whole: false,
    sender: 0,
    mask: 9,
    pending: 32,
};

// A running column, not the root, with these sets. `holding` of five.rt sets the other fields.
pub fn member(send: u16, awaited: u16, owed: u16, noted: u16) -> Column {
    Column {
        send,
        awaited,
        owed,
        noted,
        ..IDLE
    }
}

// The same as the root holds them: its goal is the whole bank.
pub fn root(send: u16, awaited: u16, owed: u16, noted: u16) -> Column {
    Column {
        whole: true,
        ..member(send, awaited, owed, noted)
    }
}

// The column, halted.
pub fn halted(c: Column) -> Column {
    Column {
        running: false,
        ..c
    }
}

// The column with another number of its record.
pub fn numbered(c: Column, number: Number) -> Column {
    Column { number, ..c }
}

// All heads of messages are below it.
pub const ACKNOWLEDGING: u64 = 256 * 256 * NUMBERS;

// The head of a message: who sent it, whom it is for, and the number of its order. Made here, since what `bank` makes of a packet is tested.
pub fn message(from: u64, to: u64, number: u64) -> u64 {
    (from % 256 * 256 + to % 256) * NUMBERS + number % NUMBERS
}

// The head of an acknowledgement: that of a message, above all heads of messages.
pub fn acknowledgement(from: u64, to: u64, number: u64) -> u64 {
    ACKNOWLEDGING | message(from, to, number)
}

// No packet; nothing to do for anyone but to note column 2.
pub fn quiet() -> State {
    let nobody = State {
        bank: Bank::empty(TREE),
        network: Network::EMPTY,
    };
    nobody
        .with_column(0, root(0, 0, 0, 0))
        .with_column(1, member(0, 0, 0, 0))
        .with_column(2, halted(member(0, 0, 0, 0)))
}

// Six packets of every kind that a handed-in bank may hold, and work for both running columns.
pub fn busy() -> State {
    quiet()
        .with_column(0, root(C1, C2, 0, 0))
        .with_column(1, member(C2, 0, C0, 0))
        .with_column(2, halted(member(0, 0, C1, 0)))
        .with_words(0, acknowledgement(1, 0, 5), 0)
        .with_words(1, message(0, 1, 5), 7)
        .with_words(2, acknowledgement(2, 0, 4), 0)
        .with_words(3, message(2, 1, 5), 7)
        .with_words(4, message(0, 1, 4), 8)
        .with_words(5, acknowledgement(0, 1, 5), 0)
        .with_count(6)
}

// At rest: both running columns have noted the halted one, and have nothing to do.
pub fn resting() -> State {
    quiet()
        .with_column(0, root(0, 0, 0, C2))
        .with_column(1, member(0, 0, 0, C2))
}
