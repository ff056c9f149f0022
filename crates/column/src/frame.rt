// Frames of joined packets.
ghost use Rattle.std.specs.Prelude.{◌≡◌};
ghost use Rattle.column.specs.Frames.{read_frame, frame_meant, frame_of};

use crate::codec::{Reading, read};
use crate::error::Refusal;
use crate::packet::{CAPACITY, Packet};

// What a place without a packet holds, as `frame_of` says it: the count tells it from a packet.
pub const NO_PACKET: Packet = Packet::Message {
    from: 0,
    to: 0,
    number: 0,
    doors: 0,
};

// The packets of a frame, from place 0 on, and how many they are. It has no heap, and so a place for as many as a frame can have.
#[derive(Clone, Copy)]
pub struct Frame {
    pub count: usize,
    pub packets: [Packet; CAPACITY],
}

// The packets that are joined in the frame, in their order from place 0 on, and how many. "A frame with a bad packet anywhere is refused with 12 and yields no
// packet."
pub fn read_frame(frame: &[u8]) -> Result<Frame, Refusal>
    ensures { frame_meant result ≡ frame_of (read_frame frame.now) }
{
    let mut packets = [NO_PACKET; CAPACITY];
    let mut count = 0;
    // How many bytes a packet takes is not known before it is read, so that no iterator goes over them.
    let mut rest = frame;
    while !rest.is_empty() {
        if count == CAPACITY {
            return Err(Refusal::MalformedPacket);
        }
        let Reading { packet, used } = read(rest)?;
        packets[count] = packet;
        count += 1;
        rest = &rest[used..];
    }
    Ok(Frame { count, packets })
}
