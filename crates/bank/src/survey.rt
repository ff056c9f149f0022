// What a step needs to know of the bank that it is lent, by one pass over the columns and one over the packets: whether the bank is
// refused, and who runs. What a packet is tested by comes apart from its tree, as validity.rt says. The heads are lent whole beside their count, which may be any
// number until `check_seen` has tested it. Columns and places are numbers that are tested: a type would be made from the test, and taken apart for each shift.
ghost use Rattle.std.specs.Prelude.{◌≡◌, ℕ, ◌≤◌, ◌<◌, get_or};
ghost use Rattle.column.specs.Sets.{minus, whole};
ghost use Rattle.column.specs.Refusals.{refusal_of};
ghost use Rattle.column.specs.Trees.{every};
ghost use Rattle.bank.specs.inner.Surveys.{ends_valid, barred_of, pair_valid, head_valid, places_of, unseen, sets_of, members_in, Sees, RefusesSeen, Surveys};

use crate::bank::{Bank, Words};
use crate::words::{ACKNOWLEDGING, ENDS, PAIRS, receiver_in, sender_in};
use column::error::Refusal;
use column::members::within;
use column::packet::{CAPACITY, NUMBERS};
use column::state::Column;
use column::topology::check_tree;
use column::tree::Tree;

// What is no column's number: `barred_of` of Surveys answers it in place of none, so that a packet's receiver is compared with a byte.
const NO_END: u8 = 255;

// How many sets of one kind there are: the factor of the second of four kinds in one number, and those of the third and the fourth.
const SETS: u64 = 65536;

const OWED: u64 = SETS * SETS;

const NOTED: u64 = SETS * OWED;

// What a pass over the columns has gathered.
#[derive(Clone, Copy)]
struct Seen {
    // The members of all sets, those of each of the four kinds in sixteen binary digits of their own.
    pub sets: u64,
    // The same with those of each column moved down by its number: digit 32 is 1 where a column owes itself.
    pub own: u64,
    // Whether every sender is a column.
    pub sent: bool,
    pub running: u16,
}

fn unseen() -> Seen
    ensures { result ≡ unseen }
{
    Seen {
        sets: 0,
        own: 0,
        sent: true,
        running: 0,
    }
}

// The pass goes over so many places: the tree is tested after it.
fn places(columns: usize) -> usize
    ensures { result ≡ places_of columns }
{
    columns.min(16)
}

// The four sets of a column as one number: they are side by side in a column, so that it is read at once.
fn sets_of(c: Column) -> u64
    ensures { result ≡ sets_of c }
{
    (c.send as u64) + (c.awaited as u64) * SETS + (c.owed as u64) * OWED + (c.noted as u64) * NOTED
}

// Column i, which is c, is seen too.
fn see(v: Seen, columns: usize, i: usize, c: Column) -> Seen
    requires { i < 16 }
    ensures { Sees result v columns i c }
{
    let sets = sets_of(c);
    Seen {
        sets: v.sets | sets,
        own: v.own | (sets >> i),
        sent: v.sent & (c.sender < columns),
        running: v.running | ((c.running as u16) << i),
    }
}

// The members of sets of all four kinds.
fn members_in(sets: u64) -> u16
    ensures { result ≡ members_in sets }
{
    let members = (sets % SETS) | (sets / SETS % SETS) | (sets / OWED % SETS) | (sets / NOTED);
    members as u16
}

// Row 4 of a packet, by its head, but for whether its receiver runs.
pub fn ends_valid(columns: usize, root: usize, watch: bool, head: u64) -> bool
    requires { columns ≤ 16 }
    ensures { result ≡ ends_valid columns root watch head }
{
    let from = sender_in(head);
    let to = receiver_in(head);
    if columns <= to {
        return false;
    }
    if columns <= from {
        return false;
    }
    if from == to {
        return false;
    }
    if to != root {
        return true;
    }
    if watch {
        return true;
    }
    ACKNOWLEDGING <= head
}

// To which byte no message may be addressed: the root's, or where senders are watched one that is no column's.
fn barred(root: usize, watch: bool) -> u8
    ensures { result ≡ barred_of root watch }
{
    if watch {
        return NO_END;
    }
    let byte = (root % 256) as u8;
    byte
}

// Row 4 of a packet but for whether its receiver runs, by what is above the number in its head. Bytes are compared, which is quicker.
fn pair_valid(columns: u8, barred: u8, pair: u64) -> bool
    ensures { result ≡ pair_valid columns barred pair }
{
    let from = (pair / ENDS % ENDS) as u8;
    let to = (pair % ENDS) as u8;
    if from == to {
        return false;
    }
    if columns <= from {
        return false;
    }
    if columns <= to {
        return false;
    }
    if to != barred {
        return true;
    }
    PAIRS <= pair
}

// Row 4 of every packet. The receivers are gathered, and compared once with those who run.
fn heads_valid(
    columns: usize,
    root: usize,
    watch: bool,
    running: u16,
    count: usize,
    heads: &Words,
) -> bool
    requires { (columns ≤ 16) × ((root < 16) × (count ≤ 512)) }
    ensures { result ≡ every (λ (k : ℕ). head_valid columns root watch running (get_or heads.now k 0)) count }
{
    let bound = columns as u8;
    let closed = barred(root, watch);
    let mut receivers: u64 = 0;
    for head in &heads[..count] {
        let pair = *head / NUMBERS;
        if !pair_valid(bound, closed, pair) {
            return false;
        }
        receivers |= 1u64 << (pair % ENDS);
    }
    let set = running as u64;
    receivers | set == set
}

// Of so many columns those that do not run.
pub fn halted(columns: usize, running: u16) -> u16
    requires { columns ≤ 16 }
    ensures { result ≡ minus (whole columns) running }
{
    let every = ((1u32 << columns) - 1) as u16;
    (every | running) ^ running
}

// 2, 3 or 4 of a bank whose columns are seen, and whose root has that goal. The doors that packets carry are not looked at.
fn check_seen(t: Tree, v: Seen, whole: bool, count: usize, heads: &Words) -> Result<(), Refusal>
    ensures { RefusesSeen (refusal_of result) t v whole count heads.now }
{
    check_tree(t)?;
    let owes = v.own / OWED % 2 == 1;
    if !(within(members_in(v.sets), t.columns) & (v.sent & (!owes & whole))) {
        return Err(Refusal::OutOfBank);
    }
    if CAPACITY < count {
        return Err(Refusal::OutOfBank);
    }
    if !heads_valid(t.columns, t.root, t.watch, v.running, count, heads) {
        return Err(Refusal::OutOfBank);
    }
    Ok(())
}

// Who runs, or by which of 2, 3 and 4 every step of the bank is refused. It is lent the bank: a call by value would copy it.
pub fn survey(b: &Bank, heads: &Words) -> Result<u16, Refusal>
    ensures { Surveys result b.now heads.now }
{
    let t = b.tree;
    let n = places(t.columns);
    let mut v = unseen();
    for j in 0..n {
        let c = b.columns[j];
        v = see(v, t.columns, j, c);
    }
    let root = b.columns[t.root % 16];
    check_seen(t, v, root.whole, b.count, heads)?;
    Ok(v.running)
}
