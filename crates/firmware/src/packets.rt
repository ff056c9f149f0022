// Packets as bytes. Each call has the arguments that the header gives it: what two have alike is the call of a writer.
ghost use Rattle.std.specs.Prelude.{◌≡◌};
ghost use Rattle.column.specs.Refusals.{meant};
ghost use Rattle.column.specs.Packets.{read as Packets·read, write as Packets·write};
ghost use Rattle.column.specs.Conversions.{convert as Conversions·convert};
ghost use Rattle.column.specs.declared.packet.Packet.TheVariants.{Message, Acknowledgement};
ghost use Rattle.firmware.specs.Calls.{answer_of, filled_meant, rewritten, packet_call, doors_call};

use crate::block::doors_in;
use crate::packet_block::{leave_written, put_packet};
use column::codec::{self, MESSAGE_SIZE};
use column::converter;
use column::error::Refusal;
use column::packet::Packet;

// Leaves the packet at the start of the bytes, fifteen with 0 past it, and answers its size, 15 or 7; refused with 24, 12.
#[tactic(auto, unfolding(crate::specs::Calls::packet_call))]
pub fn read(bytes: &[u8], packet: &mut [u8]) -> Result<usize, Refusal>
    ensures { filled_meant (answer_of (meant result)) packet.new ≡ packet_call (rewritten (Packets·read bytes.now)) packet.old }
{
    if packet.len() != MESSAGE_SIZE {
        return Err(Refusal::OtherBlock);
    }
    let p = codec::read(bytes)?.packet;
    Ok(put_packet(p, packet))
}

// Leaves a message and answers its size, 15; refused with 24, 12.
#[tactic(auto, unfolding(crate::specs::Calls::doors_call))]
pub fn message(
    from: u8,
    to: u8,
    number: u32,
    doors: &[u8],
    packet: &mut [u8],
) -> Result<usize, Refusal>
    ensures { filled_meant (answer_of (meant result)) packet.new ≡ doors_call (λ d. Packets·write (Message from to number d)) doors.now packet.old }
{
    let doors = doors_in(doors)?;
    let p = Packet::Message {
        from,
        to,
        number,
        doors,
    };
    leave_written(codec::write(p), packet)
}

// Leaves an acknowledgement and answers its size, 7; refused with 24, 12.
pub fn acknowledgement(from: u8, to: u8, number: u32, packet: &mut [u8]) -> Result<usize, Refusal>
    ensures { filled_meant (answer_of (meant result)) packet.new ≡ packet_call (Packets·write (Acknowledgement from to number)) packet.old }
{
    let p = Packet::Acknowledgement { from, to, number };
    leave_written(codec::write(p), packet)
}

// Leaves the one packet that the bytes are, of the old kinds in the new and of the new in the old, and answers its size; refused with 24, 12, 18.
pub fn convert(bytes: &[u8], packet: &mut [u8]) -> Result<usize, Refusal>
    ensures { filled_meant (answer_of (meant result)) packet.new ≡ packet_call (Conversions·convert bytes.now) packet.old }
{
    leave_written(converter::convert(bytes), packet)
}
