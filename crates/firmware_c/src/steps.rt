// The steps of a lone column over its block. Each leaves the column; one that may put a packet leaves that too, fifteen bytes with 0 past it, and answers its size.
ghost use Rattle.std.specs.Prelude.{◌≡◌};
ghost use Rattle.column.specs.Steps.{send as core·send, ack as core·ack, all as core·all, note as core·note, halt as core·halt};
ghost use Rattle.firmware.specs.LoneSteps.{next as LoneSteps·next, strike as LoneSteps·strike};
ghost use Rattle.firmware.specs.Calls.{filled_meant, quiet_call, order_call, write_call, rejoin_call, called_meant, step_call, take_call};

use firmware::answer::answer;
use firmware::steps;

// The root takes an order: its doors, eight bytes; refused with 24, 2, 3, 4, 5, 7, 8.
#[unsafe(no_mangle)]
pub extern "C" fn mudasgup_raw_order(tree: &[u8], column: &mut [u8], doors: &[u8]) -> usize
    ensures { filled_meant result column.new ≡ order_call tree.now column.old doors.now }
{
    answer(steps::order(tree, column, doors))
}

// One is served of those to send to; refused with 24, 2, 3, 4, 5, 6.
#[unsafe(no_mangle)]
pub extern "C" fn mudasgup_raw_send(tree: &[u8], column: &mut [u8], put: &mut [u8]) -> usize
    ensures { called_meant result column.new put.new ≡ step_call core·send tree.now column.old put.old }
{
    answer(steps::send(tree, column, put))
}

// The packet at the start of the bytes is taken; 100 more is answered where it is left in its place; refused with 24, 12, 2, 3, 4, 5.
#[unsafe(no_mangle)]
pub extern "C" fn mudasgup_raw_take(
    tree: &[u8],
    column: &mut [u8],
    packet: &[u8],
    put: &mut [u8],
) -> usize
    ensures { called_meant result column.new put.new ≡ take_call tree.now column.old packet.now put.old }
{
    answer(steps::take(tree, column, packet, put))
}

// The lowest owed gets its acknowledgement; refused with 24, 2, 3, 4, 5, 6.
#[unsafe(no_mangle)]
pub extern "C" fn mudasgup_raw_ack(tree: &[u8], column: &mut [u8], put: &mut [u8]) -> usize
    ensures { called_meant result column.new put.new ≡ step_call core·ack tree.now column.old put.old }
{
    answer(steps::ack(tree, column, put))
}

// The first accepted of send, ack and all; refused with 24, 2, 3, 4, 5, 6.
#[unsafe(no_mangle)]
pub extern "C" fn mudasgup_raw_next(tree: &[u8], column: &mut [u8], put: &mut [u8]) -> usize
    ensures { called_meant result column.new put.new ≡ step_call LoneSteps·next tree.now column.old put.old }
{
    answer(steps::next(tree, column, put))
}

// The column takes over the whole bank; refused with 24, 2, 3, 4, 5, 6.
#[unsafe(no_mangle)]
pub extern "C" fn mudasgup_raw_all(tree: &[u8], column: &mut [u8]) -> usize
    ensures { filled_meant result column.new ≡ quiet_call core·all tree.now column.old }
{
    answer(steps::all(tree, column))
}

// Column j is noted as halted; refused with 24, 2, 3, 4, 5, 6.
#[unsafe(no_mangle)]
pub extern "C" fn mudasgup_raw_note(tree: &[u8], column: &mut [u8], j: usize) -> usize
    ensures { filled_meant result column.new ≡ quiet_call (λ t i c. core·note t i c j) tree.now column.old }
{
    answer(steps::note(tree, column, j))
}

// The column stops; refused with 24, 2, 3, 4, 5.
#[unsafe(no_mangle)]
pub extern "C" fn mudasgup_raw_halt(tree: &[u8], column: &mut [u8]) -> usize
    ensures { filled_meant result column.new ≡ quiet_call core·halt tree.now column.old }
{
    answer(steps::halt(tree, column))
}

// A byte is written to the column's page; refused with 24, 2, 3, 4, 22.
#[unsafe(no_mangle)]
pub extern "C" fn mudasgup_raw_page_write(
    tree: &[u8],
    column: &mut [u8],
    offset: usize,
    value: u8,
) -> usize
    ensures { filled_meant result column.new ≡ write_call tree.now column.old offset value }
{
    answer(steps::write_page(tree, column, offset, value))
}

// The column comes back with the record of the lowest running one, and the set of those that remain halted; refused with 24, 2, 3, 4, 6, 15, 16.
#[unsafe(no_mangle)]
pub extern "C" fn mudasgup_raw_rejoin(
    tree: &[u8],
    column: &mut [u8],
    lowest: usize,
    number: u32,
    doors: &[u8],
    halted: usize,
) -> usize
    ensures { filled_meant result column.new ≡ rejoin_call tree.now column.old lowest number doors.now halted }
{
    answer(steps::rejoin(tree, column, lowest, number, doors, halted))
}

// The column has another, which comes back, no longer noted; refused with 24, 2, 3, 4, 14.
#[unsafe(no_mangle)]
pub extern "C" fn mudasgup_raw_strike(tree: &[u8], column: &mut [u8], back: usize) -> usize
    ensures { filled_meant result column.new ≡ quiet_call (λ t i c. LoneSteps·strike t i c back) tree.now column.old }
{
    answer(steps::strike(tree, column, back))
}
