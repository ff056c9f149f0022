// Where each field of a tree and of a column is in its block, and both read and written, byte by byte: the layout is that of the header, and no conversion of the
// library has it. A place in a block comes beside it, since a field is one of several.
ghost use Rattle.std.specs.Prelude.{◌+◌, ◌<◌, ◌≤◌, ◌≡◌, true, false, length, take, drop, IfOk, IfErr};
ghost use Rattle.column.specs.Refusals.{meant};
ghost use Rattle.column.specs.declared.error.Refusal.TheVariants.{OtherBlock};
ghost use Rattle.text.specs.Text.{written};
ghost use Rattle.firmware.specs.Blocks.{is_block, tree_size, is_tree, tree_in, tree_bytes, column_size, is_column, own_in, column_in, column_bytes, status_of};
ghost use Rattle.firmware.specs.inner.BlockReads.{doors_given};

use column::error::Refusal;
use column::state::Column;
use column::tree::Tree;

pub const TREE_SIZE: usize = 35;

pub const COLUMN_SIZE: usize = 25;

pub const DOORS_SIZE: usize = 8;

// Byte 0 of every block says what it is, and in which version of the layout: 0x12 a tree, 0x22 a column.
const LAYOUT: usize = 0;

const TREE_LAYOUT: u8 = 18;

const COLUMN_LAYOUT: u8 = 34;

// Bit 7 of a tree's count of columns: whether a column watches the one that sent its record.
const WATCH: u8 = 128;

const COLUMNS: usize = 1;

const ROOT: usize = 2;

const UP: usize = 3;

const FIRST: usize = 19;

const OWN: usize = 1;

const DOORS: usize = 2;

const NUMBER: usize = 10;

const SEND: usize = 14;

const AWAITED: usize = 16;

const OWED: usize = 18;

const NOTED: usize = 20;

const STATUS: usize = 22;

pub const MASK: usize = 23;

pub const PENDING: usize = 24;

// Bytes as a block of this size and layout; or 24.
fn block<const N: usize>(s: &[u8], layout: u8) -> Result<&[u8; N], Refusal>
    requires { 0 < N }
    ensures block { IfOk result (λ block. (is_block N layout s.now ≡ true) × (block.now ≡ s.now)) }
    ensures other { IfErr result (λ refusal. (is_block N layout s.now ≡ false) × (refusal ≡ OtherBlock)) }
{
    let Ok(block) = <&[u8; N]>::try_from(s) else {
        return Err(Refusal::OtherBlock);
    };
    if block[LAYOUT] != layout {
        return Err(Refusal::OtherBlock);
    }
    Ok(block)
}

// Bytes as the block of a tree; or 24.
pub fn tree_block(s: &[u8]) -> Result<&[u8; TREE_SIZE], Refusal>
    ensures block { IfOk result (λ block. (is_tree s.now ≡ true) × (block.now ≡ s.now)) }
    ensures other { IfErr result (λ refusal. (is_tree s.now ≡ false) × (refusal ≡ OtherBlock)) }
{
    block(s, TREE_LAYOUT)
}

// Bytes as the block of a column; or 24.
pub fn column_block(s: &[u8]) -> Result<&[u8; COLUMN_SIZE], Refusal>
    ensures block { IfOk result (λ block. (is_column s.now ≡ true) × (block.now ≡ s.now)) }
    ensures other { IfErr result (λ refusal. (is_column s.now ≡ false) × (refusal ≡ OtherBlock)) }
{
    block(s, COLUMN_LAYOUT)
}

// Puts bytes from a place on. A loop, as in `text`: the library's copy would ask C for `memmove`.
pub fn put_bytes(out: &mut [u8], at: usize, bytes: &[u8])
    requires { at + length bytes.now ≤ length out.old }
    ensures { out.new ≡ written out.old at bytes.now }
{
    for (i, byte) in bytes.iter().enumerate() {
        out[at + i] = *byte;
    }
}

// The bytes of a field, from a place on.
fn field<const N: usize>(block: &[u8], at: usize) -> [u8; N]
    requires { at + N ≤ length block.now }
    ensures { result ≡ take N (drop at block.now) }
{
    let end = at + N;
    let mut bytes = [0u8; N];
    bytes.copy_from_slice(&block[at..end]);
    bytes
}

// The tree that a block means.
pub fn tree_in(block: &[u8; TREE_SIZE]) -> Tree
    ensures { result ≡ tree_in block.now }
{
    let head = block[COLUMNS];
    Tree {
        columns: usize::from(head % WATCH),
        root: usize::from(block[ROOT]),
        up: field(block, UP),
        first: field(block, FIRST),
        watch: WATCH <= head,
    }
}

// Fills a block with a tree.
pub fn put_tree(t: Tree, out: &mut [u8])
    requires { length out.old ≡ tree_size }
    ensures { out.new ≡ tree_bytes t }
{
    let columns = (t.columns % 128) as u8;
    let root = (t.root % 256) as u8;
    out[LAYOUT] = TREE_LAYOUT;
    out[COLUMNS] = columns + u8::from(t.watch) * WATCH;
    out[ROOT] = root;
    put_bytes(out, UP, &t.up);
    put_bytes(out, FIRST, &t.first);
}

// Which column of its bank a block is.
pub fn own_in(block: &[u8; COLUMN_SIZE]) -> u8
    ensures { result ≡ own_in block.now }
{
    block[OWN]
}

// The column that a block means.
#[tactic(auto, using(crate::proofs::laws::ByteLaws::read_numbers))]
pub fn column_in(block: &[u8; COLUMN_SIZE]) -> Column
    ensures { result ≡ column_in block.now }
{
    let status = block[STATUS];
    Column {
        doors: u64::from_le_bytes(field(block, DOORS)),
        number: u32::from_be_bytes(field(block, NUMBER)),
        send: u16::from_be_bytes(field(block, SEND)),
        awaited: u16::from_be_bytes(field(block, AWAITED)),
        owed: u16::from_be_bytes(field(block, OWED)),
        noted: u16::from_be_bytes(field(block, NOTED)),
        running: status % 2 == 1,
        whole: status / 2 % 2 == 1,
        sender: usize::from(status / 4),
        mask: block[MASK],
        pending: block[PENDING],
    }
}

// Doors, eight bytes; or 24.
#[tactic(auto, using(crate::proofs::laws::ByteLaws::read_numbers))]
pub fn doors_in(s: &[u8]) -> Result<u64, Refusal>
    ensures { meant result ≡ doors_given s.now }
{
    match s.try_into() {
        Ok(bytes) => Ok(u64::from_le_bytes(bytes)),
        Err(_) => Err(Refusal::OtherBlock),
    }
}

fn status_of(c: Column) -> u8
    ensures { result ≡ status_of c }
{
    let sender = (c.sender % 64) as u8;
    u8::from(c.running) + (u8::from(c.whole) * 2 + sender * 4)
}

// Fills a block with a column and its own number.
pub fn put_column(own: u8, c: Column, out: &mut [u8])
    requires { length out.old ≡ column_size }
    ensures { out.new ≡ column_bytes own c }
{
    let status = status_of(c);
    out[LAYOUT] = COLUMN_LAYOUT;
    out[OWN] = own;
    put_bytes(out, DOORS, &c.doors.to_le_bytes());
    put_bytes(out, NUMBER, &c.number.to_be_bytes());
    put_bytes(out, SEND, &c.send.to_be_bytes());
    put_bytes(out, AWAITED, &c.awaited.to_be_bytes());
    put_bytes(out, OWED, &c.owed.to_be_bytes());
    put_bytes(out, NOTED, &c.noted.to_be_bytes());
    put_bytes(out, STATUS, &[status, c.mask, c.pending]);
}
