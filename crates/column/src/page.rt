// The register page of a column, eight bytes that a host board reads by offset: the column's number; whether it runs and its goal; how many
// columns it is to send to, awaits and owes; the interrupt mask; what is pending; 0. The mask may be written, and what is pending cleared.
ghost use Rattle.std.specs.Prelude.{cond, ◌≡◌, ◌<◌};
ghost use Rattle.std.specs.Int.Count.{ones};
ghost use Rattle.column.specs.Refusals.{refusal_of, meant};
ghost use Rattle.column.specs.Steps.{outcome_meant};
ghost use Rattle.column.specs.Pages.{page, read_refusal, read_byte, writable, write_refusal, written, write, line_up};

use crate::error::Refusal;
use crate::outcome::Outcome;
use crate::state::{Column, check_validity};
use crate::tree::Tree;

pub const PAGE_SIZE: usize = 8;

// Where the interrupt mask is.
pub const MASK_OFFSET: usize = 5;

// Where what is pending is cleared.
pub const CLEAR_OFFSET: usize = 7;

// Digit 0 of byte 1 is whether it runs; this one is whether its goal is the whole bank.
const GOAL_DIGIT: u32 = 1;

// The bits of byte 6, what is pending.
pub const RECORD_RECEIVED: u8 = 1;

pub const HALT_NOTED: u8 = 2;

pub const TOOK_OVER: u8 = 4;

// How many members a set has.
fn members(set: u16) -> u8
    ensures { result ≡ ones set }
{
    let count = u16::count_ones(set);
    count as u8
}

fn page(i: usize, c: Column) -> [u8; PAGE_SIZE]
    requires { i < 16 }
    ensures { result ≡ page i c }
{
    let number = i as u8;
    let flags = u8::from(c.running) | u8::from(c.whole) << GOAL_DIGIT;
    let send = members(c.send);
    let awaited = members(c.awaited);
    let owed = members(c.owed);
    [number, flags, send, awaited, owed, c.mask, c.pending, 0]
}

// Of a read of column i's page: 2 to 4, 22 for an offset above 7. This test and that of a write are alike in form: each asks of the offset what no parameter says.
#[tactic(auto, unfolding(crate::specs::Pages::read_refusal))]
pub fn check_read(t: Tree, i: usize, c: Column, offset: usize) -> Result<(), Refusal>
    ensures { refusal_of result ≡ read_refusal t i c offset }
{
    check_validity(t, i, c)?;
    if PAGE_SIZE <= offset {
        return Err(Refusal::NoOffset);
    }
    Ok(())
}

// The byte at an offset of column i's page, a halted one's too; or 2 to 4, 22.
pub fn read(t: Tree, i: usize, c: Column, offset: usize) -> Result<u8, Refusal>
    ensures { meant result ≡ read_byte t i c offset }
{
    check_read(t, i, c, offset)?;
    let bytes = page(i, c);
    Ok(bytes[offset])
}

// Whether a byte can be written at this offset.
pub fn writable(offset: usize) -> bool
    ensures { result ≡ writable offset }
{
    (offset == MASK_OFFSET) | (offset == CLEAR_OFFSET)
}

// Column c after a byte is written to its page; as it was where none can be.
pub fn written(mut c: Column, offset: usize, value: u8) -> Column
    ensures { result ≡ written c offset value }
{
    if offset == MASK_OFFSET {
        c.mask = value;
        return c;
    }
    if offset == CLEAR_OFFSET {
        c.pending = (c.pending | value) ^ value;
    }
    c
}

// Of a write to column i's page: 2 to 4, 22 for any offset but 5 and 7.
#[tactic(auto, unfolding(crate::specs::Pages::write_refusal))]
pub fn check_write(t: Tree, i: usize, c: Column, offset: usize) -> Result<(), Refusal>
    ensures { refusal_of result ≡ write_refusal t i c offset }
{
    check_validity(t, i, c)?;
    if !writable(offset) {
        return Err(Refusal::NoOffset);
    }
    Ok(())
}

// Column i after a byte is written to its page, a halted one too; or 2 to 4, 22.
pub fn write(t: Tree, i: usize, c: Column, offset: usize, value: u8) -> Result<Outcome, Refusal>
    ensures { outcome_meant c result ≡ write t i c offset value }
{
    check_write(t, i, c, offset)?;
    Ok(Outcome::done(written(c, offset, value)))
}

// Whether the line is up: something that the mask has is pending.
pub fn line_up(c: Column) -> bool
    ensures { result ≡ line_up c }
{
    c.mask & c.pending != 0
}
