// What a bank holds, and the fresh bank. Its network's packets are lent to each call: packet k is word k of two arrays of 512.
ghost use Rattle.std.specs.Prelude.{◌≡◌};
ghost use Rattle.bank.specs.Banks.{no_bank};
ghost use Rattle.bank.specs.Steps.{answered, fresh};

use column::error::Refusal;
use column::packet::CAPACITY;
use column::state::{Column, fresh_under};
use column::topology::check_tree;
use column::tree::Tree;

// One word for each packet of the network.
pub type Words = [u64; CAPACITY];

// The packets under way, lent to each call: packet k is word k of both. How many they are the bank holds. They are words and no packets: a test of all compares
// heads, and `state` and every theorem on it speak of the two lists.
#[derive(Clone, Copy, PartialEq, Eq)]
pub struct Network {
    pub heads: Words,
    pub doors: Words,
}

impl Network {
    // The network without a packet.
    pub const EMPTY: Network = Network {
        heads: [0; CAPACITY],
        doors: [0; CAPACITY],
    };
}

#[derive(Clone, Copy, PartialEq, Eq)]
pub struct Bank {
    pub tree: Tree,
    // All sixteen places are held by value, whatever the tree's columns: the papers ask for this form.
    pub columns: [Column; 16],
    // How many packets are under way: those of the network, and not the columns.
    pub count: usize,
}

#[derive(Clone, Copy)]
pub enum Step {
    Order(u64),
    Send(usize),
    Take(usize),
    Ack(usize),
    All(usize),
    Note(usize, usize),
    Halt(u32),
    Back(usize),
    // The column of a page, the offset, and the byte to write there.
    Write(usize, usize, u8),
}

// What is in a place without a column. It is no `Option`: `no_column` of Banks says it, which every definition of a bank reads past the columns.
pub const NO_COLUMN: Column = Column {
    running: false,
    number: 0,
    doors: 0,
    send: 0,
    awaited: 0,
    owed: 0,
    noted: 0,
    whole: false,
    sender: 0,
    mask: 0,
    pending: 0,
};

impl Bank {
    // The bank of a tree in which nobody runs and no packet is under way: what a caller has where `fresh` refuses the tree.
    pub fn empty(tree: Tree) -> Bank
        ensures { result ≡ no_bank tree }
    {
        Bank {
            tree,
            columns: [NO_COLUMN; 16],
            count: 0,
        }
    }
}

// The bank of a tree as it begins; or 2 or 3 of the tree.
#[tactic(auto, unfolding(crate::specs::Banks::places))]
pub fn fresh(t: Tree) -> Result<Bank, Refusal>
    ensures { answered (no_bank t) result ≡ fresh t }
{
    check_tree(t)?;
    let mut b = Bank::empty(t);
    let n = t.columns;
    let root = t.root;
    for i in 0..n {
        b.columns[i] = fresh_under(root, i);
    }
    Ok(b)
}
