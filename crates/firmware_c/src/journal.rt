// The lines of a column's journal, for the fitter's comparison.
ghost use Rattle.std.specs.Prelude.{◌≡◌};
ghost use Rattle.firmware.specs.Calls.{filled_meant, owner_call, sent_call, got_call};

use firmware::answer::answer;
use firmware::journal;

// Leaves the first line of the column's journal and answers its length; refused with 24, 11.
#[unsafe(no_mangle)]
pub extern "C" fn mudasgup_raw_journal_owner(column: &[u8], text: &mut [u8]) -> usize
    ensures { filled_meant result text.new ≡ owner_call column.now text.old }
{
    answer(journal::owner(column, text))
}

// Leaves the line of a packet that the column sent and answers its length, 21 at most; refused with 24, 12, 4, 11.
#[unsafe(no_mangle)]
pub extern "C" fn mudasgup_raw_journal_sent(column: &[u8], packet: &[u8], text: &mut [u8]) -> usize
    ensures { filled_meant result text.new ≡ sent_call column.now packet.now text.old }
{
    answer(journal::sent(column, packet, text))
}

// Leaves the line of a packet that the column got and answers its length, 21 at most; refused with 24, 12, 4, 11.
#[unsafe(no_mangle)]
pub extern "C" fn mudasgup_raw_journal_got(column: &[u8], packet: &[u8], text: &mut [u8]) -> usize
    ensures { filled_meant result text.new ≡ got_call column.now packet.now text.old }
{
    answer(journal::got(column, packet, text))
}
