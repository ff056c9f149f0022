// What a return makes of one column: of the one that comes back, and of each other. A column does not know that it was away: whoever
// brings it back says what it is to hold.
ghost use Rattle.std.specs.Prelude.{◌≡◌};
ghost use Rattle.column.specs.Returns.{rejoined, struck};

use crate::sets::without;
use crate::state::Column;

// Column `own` as it comes back: with the record of c, which `sender` sent it, the set of columns that remain halted, and its goal. Each field is named, since they
// come from two columns.
pub fn rejoin(own: Column, c: Column, noted: u16, whole: bool, sender: usize) -> Column
    ensures { result ≡ rejoined own c noted whole sender }
{
    Column {
        running: true,
        number: c.number,
        doors: c.doors,
        send: 0,
        awaited: 0,
        owed: 0,
        noted,
        whole,
        sender,
        mask: own.mask,
        pending: own.pending,
    }
}

// Column c, which has j no longer noted.
pub fn strike(mut c: Column, j: usize) -> Column
    ensures { result ≡ struck c j }
{
    if 16 <= j {
        return c;
    }
    c.noted = without(c.noted, j);
    c
}
