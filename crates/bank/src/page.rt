// The register pages of the columns: a byte read, a byte written, and whether the line is up. A halted column has its page too. They are alike in form alone:
// what they share is `check_acting`. A bank and a column's number are the papers' arguments of a step; the packets' heads are lent, so as not to be copied.
ghost use Rattle.bank.specs.Pages.{Reads, TellsLine};
ghost use Rattle.bank.specs.inner.Changes.{Writes};

use crate::bank::{Bank, Words};
use crate::settling::column_at;
use crate::validity::check_acting;
use column::error::Refusal;
use column::page::{writable, written};

// The byte at an offset of the page of column i; or 2 to 4, 22 for an offset above 7.
pub fn read(b: Bank, i: usize, offset: usize, heads: &Words) -> Result<u8, Refusal>
    ensures { Reads result b heads.now i offset }
{
    check_acting(b, i, heads)?;
    column::page::read(b.tree, i, column_at(b, i), offset)
}

// A byte written to the page of column i; or 2 to 4, 22 for any offset but 5 and 7.
pub(crate) fn write_byte(
    mut b: Bank,
    i: usize,
    offset: usize,
    value: u8,
    heads: &Words,
) -> Result<Bank, Refusal>
    ensures { Writes result b heads.now i offset value }
{
    check_acting(b, i, heads)?;
    if !writable(offset) {
        return Err(Refusal::NoOffset);
    }
    let c = b.columns[i];
    b.columns[i] = written(c, offset, value);
    Ok(b)
}

// Whether the line of column i is up; or 2 to 4.
pub fn line_up(b: Bank, i: usize, heads: &Words) -> Result<bool, Refusal>
    ensures { TellsLine result b heads.now i }
{
    check_acting(b, i, heads)?;
    Ok(column::page::line_up(column_at(b, i)))
}
