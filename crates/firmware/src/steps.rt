// The steps of a lone column over its block. Each leaves the column; one that may put a packet leaves that too, fifteen bytes with 0 past it, and answers its size.
// Each is a function by name, since the header and the documents name it, with the blocks that the header lends.
ghost use Rattle.std.specs.Prelude.{◌≡◌};
ghost use Rattle.column.specs.Refusals.{meant};
ghost use Rattle.column.specs.Steps.{send as core·send, ack as core·ack, all as core·all, note as core·note, halt as core·halt};
ghost use Rattle.firmware.specs.LoneSteps.{next as LoneSteps·next, strike as LoneSteps·strike};
ghost use Rattle.firmware.specs.Calls.{answer_of, filled_meant, quiet_call, order_call, write_call, rejoin_call, called_meant, step_blocks, step_call, take_call};
ghost use Rattle.firmware.specs.inner.StepCalls.{quiet_of, putting_of};

use crate::block::{column_block, doors_in, put_column, tree_block};
use crate::lone::{LoneColumn, PuttingStep, QuietStep, Return};
use crate::packet_block::put_packet;
use column::codec::{self, MESSAGE_SIZE};
use column::error::Refusal;
use column::outcome::Answer;

// What is left where no packet is to be put.
const NO_PACKET: [u8; MESSAGE_SIZE] = [0; MESSAGE_SIZE];

// Added where the packet taken is left in its place.
const LEFT: usize = 100;

// A step that puts no packet, over its column's block.
#[tactic(auto, unfolding(crate::specs::Calls::quiet_call))]
fn step_quietly(x: QuietStep, tree: &[u8], column: &mut [u8]) -> Result<usize, Refusal>
    ensures { filled_meant (answer_of (meant result)) column.new ≡ quiet_call (quiet_of x) tree.now column.old }
{
    let lone = LoneColumn::in_blocks(tree_block(tree)?, column_block(column)?);
    let after = lone.quiet_step(x)?.column;
    put_column(lone.own, after, column);
    Ok(0)
}

// Whether bytes are the blocks of a step that may put a packet.
fn step_blocks(tree: &[u8], column: &[u8], put: usize) -> bool
    ensures { result ≡ step_blocks tree.now column.now put }
{
    tree_block(tree).is_ok() && column_block(column).is_ok() && put == MESSAGE_SIZE
}

// A step that may put a packet, over its column's block.
#[tactic(auto, unfolding(crate::specs::Calls::step_call))]
fn step(x: PuttingStep, tree: &[u8], column: &mut [u8], put: &mut [u8]) -> Result<usize, Refusal>
    ensures { called_meant (answer_of (meant result)) column.new put.new ≡ step_call (putting_of x) tree.now column.old put.old }
{
    if put.len() != MESSAGE_SIZE {
        return Err(Refusal::OtherBlock);
    }
    let lone = LoneColumn::in_blocks(tree_block(tree)?, column_block(column)?);
    let after = lone.putting_step(x)?;
    put_column(lone.own, after.column, column);
    Ok(match after.answer {
        Answer::Done => {
            put.copy_from_slice(&NO_PACKET);
            0
        }
        Answer::Put(p) => put_packet(p, put),
        Answer::Left(p) => LEFT + put_packet(p, put),
    })
}

// The root takes an order: its doors, eight bytes; refused with 24, 2, 3, 4, 5, 7, 8.
#[tactic(auto, unfolding(crate::specs::Calls::doors_over))]
pub fn order(tree: &[u8], column: &mut [u8], doors: &[u8]) -> Result<usize, Refusal>
    ensures { filled_meant (answer_of (meant result)) column.new ≡ order_call tree.now column.old doors.now }
{
    step_quietly(QuietStep::Order(doors_in(doors)?), tree, column)
}

// One is served of those to send to; refused with 24, 2, 3, 4, 5, 6.
pub fn send(tree: &[u8], column: &mut [u8], put: &mut [u8]) -> Result<usize, Refusal>
    ensures { called_meant (answer_of (meant result)) column.new put.new ≡ step_call core·send tree.now column.old put.old }
{
    step(PuttingStep::Send, tree, column, put)
}

// The packet at the start of the bytes is taken; 100 more is answered where it is left in its place; refused with 24, 12, 2, 3, 4, 5.
#[tactic(auto, unfolding(crate::specs::Calls::take_call, crate::specs::Calls::step_call))]
pub fn take(tree: &[u8], column: &mut [u8], packet: &[u8], put: &mut [u8]) -> Result<usize, Refusal>
    ensures { called_meant (answer_of (meant result)) column.new put.new ≡ take_call tree.now column.old packet.now put.old }
{
    if !step_blocks(tree, column, put.len()) {
        return Err(Refusal::OtherBlock);
    }
    let p = codec::read(packet)?.packet;
    step(PuttingStep::Take(p), tree, column, put)
}

// The lowest owed gets its acknowledgement; refused with 24, 2, 3, 4, 5, 6.
pub fn ack(tree: &[u8], column: &mut [u8], put: &mut [u8]) -> Result<usize, Refusal>
    ensures { called_meant (answer_of (meant result)) column.new put.new ≡ step_call core·ack tree.now column.old put.old }
{
    step(PuttingStep::Ack, tree, column, put)
}

// The first accepted of send, ack and all; refused with 24, 2, 3, 4, 5, 6.
pub fn next(tree: &[u8], column: &mut [u8], put: &mut [u8]) -> Result<usize, Refusal>
    ensures { called_meant (answer_of (meant result)) column.new put.new ≡ step_call LoneSteps·next tree.now column.old put.old }
{
    step(PuttingStep::Next, tree, column, put)
}

// The column takes over the whole bank; refused with 24, 2, 3, 4, 5, 6.
pub fn all(tree: &[u8], column: &mut [u8]) -> Result<usize, Refusal>
    ensures { filled_meant (answer_of (meant result)) column.new ≡ quiet_call core·all tree.now column.old }
{
    step_quietly(QuietStep::All, tree, column)
}

// Column j is noted as halted; refused with 24, 2, 3, 4, 5, 6.
pub fn note(tree: &[u8], column: &mut [u8], j: usize) -> Result<usize, Refusal>
    ensures { filled_meant (answer_of (meant result)) column.new ≡ quiet_call (λ t i c. core·note t i c j) tree.now column.old }
{
    step_quietly(QuietStep::Note(j), tree, column)
}

// The column stops; refused with 24, 2, 3, 4, 5.
pub fn halt(tree: &[u8], column: &mut [u8]) -> Result<usize, Refusal>
    ensures { filled_meant (answer_of (meant result)) column.new ≡ quiet_call core·halt tree.now column.old }
{
    step_quietly(QuietStep::Halt, tree, column)
}

// A byte is written to the column's page; refused with 24, 2, 3, 4, 22.
pub fn write_page(
    tree: &[u8],
    column: &mut [u8],
    offset: usize,
    value: u8,
) -> Result<usize, Refusal>
    ensures { filled_meant (answer_of (meant result)) column.new ≡ write_call tree.now column.old offset value }
{
    step_quietly(QuietStep::Write(offset, value), tree, column)
}

// The column comes back with the record of the lowest running one, and the set of those that remain halted; refused with 24, 2, 3, 4, 6, 15, 16.
#[tactic(auto, unfolding(crate::specs::Calls::doors_over))]
pub fn rejoin(
    tree: &[u8],
    column: &mut [u8],
    lowest: usize,
    number: u32,
    doors: &[u8],
    halted: usize,
) -> Result<usize, Refusal>
    ensures { filled_meant (answer_of (meant result)) column.new ≡ rejoin_call tree.now column.old lowest number doors.now halted }
{
    let back = Return {
        copied: lowest,
        number,
        doors: doors_in(doors)?,
        halted,
    };
    step_quietly(QuietStep::Rejoin(back), tree, column)
}

// The column has another, which comes back, no longer noted; refused with 24, 2, 3, 4, 14.
pub fn strike(tree: &[u8], column: &mut [u8], back: usize) -> Result<usize, Refusal>
    ensures { filled_meant (answer_of (meant result)) column.new ≡ quiet_call (λ t i c. LoneSteps·strike t i c back) tree.now column.old }
{
    step_quietly(QuietStep::Strike(back), tree, column)
}
