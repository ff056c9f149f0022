// The line between the two ends: what steps put goes over it as the bytes of one frame, and each column takes from these what is for it.
ghost use Rattle.std.specs.Prelude.{OnErr, ◌≡◌, ◌≤◌};

use crate::failure::Failure;
use crate::print::Hex;
use column::codec::{MESSAGE_SIZE, Written, write};
use column::error::Refusal;
use column::outcome::Answer;
use std::io;

// Two messages.
const FRAME_SIZE: usize = 2 * MESSAGE_SIZE;

// Packets joined from its start, in an array with how much of it they take: no heap.
#[derive(Drop)]
pub struct Frame {
    joined: [u8; FRAME_SIZE],
    size: usize,
    ghost within: { size ≤ 30 },
}

// The bytes that are the packet.
pub fn packet_bytes(written: &Written) -> &[u8] {
    &written.bytes[..written.size.min(MESSAGE_SIZE)]
}

impl Frame {
    // The packet that a step puts is joined; one that has no room is refused, and the frame left as it is.
    fn put(&mut self, answer: Answer) -> Result<(), Refusal>
        ensures { OnErr result (self.new ≡ self.old) }
    {
        let packet = match answer {
            Answer::Put(p) | Answer::Left(p) => p,
            Answer::Done => return Ok(()),
        };
        let written = write(packet)?;
        let bytes = packet_bytes(&written);
        if FRAME_SIZE - self.size < bytes.len() {
            return Err(Refusal::NoRoom);
        }
        let end = self.size + bytes.len();
        self.joined[self.size..end].copy_from_slice(bytes);
        self.size = end;
        Ok(())
    }

    // The bytes that go over the line.
    pub fn bytes(&self) -> &[u8] {
        &self.joined[..self.size]
    }
}

// What two steps put, joined in one frame.
pub fn over_the_line(out: io::Stdout, first: Answer, second: Answer) -> Result<Frame, Failure> {
    let mut frame = Frame {
        joined: [0; FRAME_SIZE],
        size: 0,
    };
    frame.put(first)?;
    frame.put(second)?;
    println!(out; "frame={}", Hex(frame.bytes()))?;
    Ok(frame)
}
