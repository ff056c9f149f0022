// A packet as fifteen bytes, those past it 0. It is put straight into what C lends, and not by the core's writer, whose array would be copied: so its kinds and its
// layout, which the papers fix, stand here once more. Both ends are bytes of it, and no type of their own.
ghost use Rattle.std.specs.Prelude.{◌≡◌, ◌∷◌, ◌++◌, length};
ghost use Rattle.column.specs.Refusals.{meant};
ghost use Rattle.column.specs.Packets.{number_size, doors_size, low_first, high_first, bytes_of, padded, write_meant};
ghost use Rattle.firmware.specs.Calls.{answer_of, packet_size, filled_meant, packet_call};

use crate::block::put_bytes;
use column::codec::{ACKNOWLEDGEMENT_SIZE, MESSAGE_SIZE, Written};
use column::error::Refusal;
use column::packet::{Number, Packet};

const KIND: usize = 0;

const FROM: usize = 1;

const TO: usize = 2;

const NUMBER: usize = 3;

// "New messages have kind 3 .., new acknowledgements kind 4"
const MESSAGE: u8 = 3;

const ACKNOWLEDGEMENT: u8 = 4;

// All fifteen bytes, with doors of 0 where a packet has none.
fn put_fields(kind: u8, from: u8, to: u8, number: Number, doors: u64, out: &mut [u8])
    requires { length out.old ≡ packet_size }
    ensures { out.new ≡ kind ∷ from ∷ to ∷ (high_first number_size number ++ low_first doors_size doors) }
{
    out[KIND] = kind;
    out[FROM] = from;
    out[TO] = to;
    put_bytes(out, NUMBER, &number.to_be_bytes());
    put_bytes(out, ACKNOWLEDGEMENT_SIZE, &doors.to_le_bytes());
}

// Fills the bytes with a packet and answers its size. The ends are not tested.
#[tactic(auto, unfolding(column::specs::Packets::low_first, column::specs::Packets::bytes_in))]
pub fn put_packet(p: Packet, out: &mut [u8]) -> usize
    requires { length out.old ≡ packet_size }
    ensures { (result ≡ length (bytes_of p)) × (out.new ≡ padded (bytes_of p)) }
{
    match p {
        Packet::Message {
            from,
            to,
            number,
            doors,
        } => {
            put_fields(MESSAGE, from, to, number, doors, out);
            MESSAGE_SIZE
        }
        Packet::Acknowledgement { from, to, number } => {
            put_fields(ACKNOWLEDGEMENT, from, to, number, 0, out);
            ACKNOWLEDGEMENT_SIZE
        }
    }
}

// Leaves the bytes of what a writer gave, and answers their size; where it refused, every byte is as it was.
#[tactic(auto, unfolding(crate::specs::Calls::packet_call))]
pub fn leave_written(written: Result<Written, Refusal>, packet: &mut [u8]) -> Result<usize, Refusal>
    ensures { filled_meant (answer_of (meant result)) packet.new ≡ packet_call (write_meant written) packet.old }
{
    if packet.len() != MESSAGE_SIZE {
        return Err(Refusal::OtherBlock);
    }
    let Written { bytes, size } = written?;
    packet.copy_from_slice(&bytes);
    Ok(size)
}
