// A bank whose root is not its lowest column, and of which no two columns have the same record, sender or page: five columns with root 2. It is
// at rest, whoever is watched.
use crate::state::{C0, C1, C2, C3, State, halted, member, root};
use bank::bank::{Bank, NO_COLUMN, Network};
use column::packet::Number;
use column::state::Column;
use column::tree::{ASCENDING, Tree};

// The set of column 4, and that of the first which five columns have not.
const C4: u16 = 16;

pub const C5: u16 = 32;

pub const TREE_OF_FIVE: Tree = Tree {
    columns: 5,
    root: 2,
    up: [2, 2, 2, 1, 0, 0, 0, 0, 0, 0, 0, 0, 0, 0, 0, 0],
    first: ASCENDING,
    watch: false,
};

// The column with this record, which that column sent, and this page. `member` sets other fields, which no parameter can name.
fn holding(c: Column, number: Number, doors: u64, sender: usize, mask: u8, pending: u8) -> Column {
    Column {
        number,
        doors,
        sender,
        mask,
        pending,
        ..c
    }
}

// The columns as given, and 0 and 3 halted, 0 while it sent, awaited and owed, and each having noted the other.
fn with_running(one: Column, two: Column, four: Column) -> State {
    let mut columns = [NO_COLUMN; 16];
    columns[0] = halted(holding(member(C1, C2, C1, C3), 7, 70, 3, 16, 6));
    columns[1] = holding(one, 6, 60, 2, 17, 2);
    columns[2] = holding(two, 9, 90, 4, 18, 4);
    columns[3] = halted(holding(member(0, 0, 0, C0), 8, 80, 0, 19, 7));
    columns[4] = holding(four, 5, 50, 1, 20, 8);
    State {
        bank: Bank {
            tree: TREE_OF_FIVE,
            columns,
            count: 0,
        },
        network: Network::EMPTY,
    }
}

// Columns 1, 2 and 4 run. The number of 1, the lowest, is between theirs; it has the whole bank as goal though the root runs, and has noted 4 too.
pub fn five() -> State {
    let noted = C0 | C3;
    with_running(
        root(0, C2, 0, noted | C4),
        root(0, 0, 0, noted),
        member(0, 0, 0, noted),
    )
}

// The root is halted too. Column 4 has taken over; 1, which awaits, has not.
pub fn five_without_root() -> State {
    let noted = C0 | C3;
    with_running(
        member(0, C2, 0, noted | C2 | C4),
        halted(root(0, 0, 0, noted)),
        root(0, 0, 0, noted | C2),
    )
}
