// Packets as bytes.
ghost use Rattle.std.specs.Prelude.{◌≡◌};
ghost use Rattle.column.specs.Packets.{read as Packets·read, write as Packets·write};
ghost use Rattle.column.specs.Conversions.{convert as Conversions·convert};
ghost use Rattle.column.specs.declared.packet.Packet.TheVariants.{Message, Acknowledgement};
ghost use Rattle.firmware.specs.Calls.{filled_meant, rewritten, packet_call, doors_call};

use firmware::answer::answer;
use firmware::packets;

// Leaves the packet at the start of the bytes, fifteen with 0 past it, and answers its size, 15 or 7; refused with 24, 12.
#[unsafe(no_mangle)]
pub extern "C" fn mudasgup_raw_packet_read(bytes: &[u8], packet: &mut [u8]) -> usize
    ensures { filled_meant result packet.new ≡ packet_call (rewritten (Packets·read bytes.now)) packet.old }
{
    answer(packets::read(bytes, packet))
}

// Leaves a message and answers its size, 15; refused with 24, 12.
#[unsafe(no_mangle)]
pub extern "C" fn mudasgup_raw_message(
    from: u8,
    to: u8,
    number: u32,
    doors: &[u8],
    packet: &mut [u8],
) -> usize
    ensures { filled_meant result packet.new ≡ doors_call (λ d. Packets·write (Message from to number d)) doors.now packet.old }
{
    answer(packets::message(from, to, number, doors, packet))
}

// Leaves an acknowledgement and answers its size, 7; refused with 24, 12.
#[unsafe(no_mangle)]
pub extern "C" fn mudasgup_raw_acknowledgement(
    from: u8,
    to: u8,
    number: u32,
    packet: &mut [u8],
) -> usize
    ensures { filled_meant result packet.new ≡ packet_call (Packets·write (Acknowledgement from to number)) packet.old }
{
    answer(packets::acknowledgement(from, to, number, packet))
}

// Leaves the one packet that the bytes are, of the old kinds in the new and of the new in the old, and answers its size; refused with 24, 12, 18.
#[unsafe(no_mangle)]
pub extern "C" fn mudasgup_raw_packet_convert(bytes: &[u8], packet: &mut [u8]) -> usize
    ensures { filled_meant result packet.new ≡ packet_call (Conversions·convert bytes.now) packet.old }
{
    answer(packets::convert(bytes, packet))
}
