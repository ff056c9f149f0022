// Packets as bytes. What is alike here is alike in form: a reader tests bytes, a writer a packet. Doors are read and written by `number_bytes` too, since the place
// where they stand goes with the width; an array of eight of them would be one copy more.
ghost use Rattle.std.specs.Prelude.{◌≤◌, ◌-◌, cond, ◌∷◌, ◌++◌, ◌≡◌, replicate};
ghost use Rattle.column.specs.Refusals.{given, refused};
ghost use Rattle.column.specs.Packets.{number_size, wide, message_size, high_first, good_ends, part, bytes_in, read_meant, read_in, read, written_meant, write_meant, wrote, write};

use crate::error::Refusal;
use crate::number_bytes::{high_value, low_value, put_high_first, put_low_first};
use crate::packet::{NUMBER_SIZE, Number, Packet, receiver, sender};

const HEAD_SIZE: usize = 3;

const DOORS_SIZE: usize = 8;

// The bytes of a message, and of an acknowledgement.
pub const MESSAGE_SIZE: usize = HEAD_SIZE + NUMBER_SIZE + DOORS_SIZE;

pub const ACKNOWLEDGEMENT_SIZE: usize = HEAD_SIZE + NUMBER_SIZE;

// What tells packets of two widths apart: the kinds of a message and of an acknowledgement, and how many bytes a number has. That these are at most four is asked
// of it where it is taken: a ghost field would hold a proof, and that of a constant here is another term than that of the definition that it is to equal.
#[derive(Clone, Copy)]
pub struct Width {
    pub message: u8,
    pub acknowledgement: u8,
    pub count: usize,
}

// "A message is 13 bytes: kind 1, from, to, number (two bytes, high first), doors. An acknowledgement is 5 bytes: kind 2, from, to, number."
pub(crate) const NARROW: Width = Width {
    message: 1,
    acknowledgement: 2,
    count: 2,
};

// "New messages have kind 3 and 15 bytes, new acknowledgements kind 4 and 7 bytes, four bytes of number, high first."
pub(crate) const WIDE: Width = Width {
    message: 3,
    acknowledgement: 4,
    count: NUMBER_SIZE,
};

// A packet, and how many bytes it takes.
#[derive(Clone, Copy)]
pub struct Reading {
    pub packet: Packet,
    pub used: usize,
}

// The bytes of a packet, those past it 0, and its size. There is no heap for as many as it has.
#[derive(Clone, Copy)]
pub struct Written {
    pub bytes: [u8; MESSAGE_SIZE],
    pub size: usize,
}

fn good_ends(p: Packet) -> bool
    ensures { result ≡ good_ends p }
{
    let from = sender(p);
    let to = receiver(p);
    if 16 <= from {
        return false;
    }
    if 16 <= to {
        return false;
    }
    from != to
}

fn checked(packet: Packet, used: usize) -> Result<Reading, Refusal>
    ensures { read_meant result ≡ cond (good_ends packet) (given (part packet used)) (refused 12) }
{
    if !good_ends(packet) {
        return Err(Refusal::MalformedPacket);
    }
    Ok(Reading { packet, used })
}

// The packet of this width at the start of these bytes and how many of them it takes; or 12 where there is none.
pub(crate) fn read_in(s: &[u8], w: Width) -> Result<Reading, Refusal>
    requires { w.count ≤ number_size }
    ensures { read_meant result ≡ read_in w s.now }
{
    let size = s.len();
    let acknowledgement_size = HEAD_SIZE + w.count;
    if size < acknowledgement_size {
        return Err(Refusal::MalformedPacket);
    }
    let kind = s[0];
    let from = s[1];
    let to = s[2];
    let number = high_value(&s[HEAD_SIZE..acknowledgement_size]) as Number;
    let message = w.message;
    if kind == message {
        let message_size = acknowledgement_size + DOORS_SIZE;
        if size < message_size {
            return Err(Refusal::MalformedPacket);
        }
        let doors = low_value(&s[acknowledgement_size..message_size]);
        return checked(
            Packet::Message {
                from,
                to,
                number,
                doors,
            },
            message_size,
        );
    }
    let acknowledgement = w.acknowledgement;
    if kind != acknowledgement {
        return Err(Refusal::MalformedPacket);
    }
    checked(
        Packet::Acknowledgement { from, to, number },
        acknowledgement_size,
    )
}

// The packet at the start of these bytes and how many of them it takes, 15 or 7; or 12 where there is none.
pub fn read(s: &[u8]) -> Result<Reading, Refusal>
    ensures { read_meant result ≡ read s.now }
{
    read_in(s, WIDE)
}

// What the two kinds have in common, the rest 0. A kind is the byte that the papers give it.
fn without_doors(kind: u8, from: u8, to: u8, number: Number, count: usize) -> [u8; MESSAGE_SIZE]
    requires { count ≤ number_size }
    ensures { result ≡ kind ∷ from ∷ to ∷ (high_first count number ++ replicate (message_size wide - 3 - count) 0) }
{
    let mut bytes = [0u8; MESSAGE_SIZE];
    bytes[0] = kind;
    bytes[1] = from;
    bytes[2] = to;
    let end = HEAD_SIZE + count;
    put_high_first(&mut bytes[HEAD_SIZE..end], number as u64);
    bytes
}

// The bytes of a packet in this width, followed by 0, and its size. The ends are not tested.
pub(crate) fn write_in(p: Packet, w: Width) -> Written
    requires { w.count ≤ number_size }
    ensures { written_meant result ≡ wrote (bytes_in w p) }
{
    let count = w.count;
    let start = HEAD_SIZE + count;
    match p {
        Packet::Message {
            from,
            to,
            number,
            doors,
        } => {
            let end = start + DOORS_SIZE;
            let mut bytes = without_doors(w.message, from, to, number, count);
            put_low_first(&mut bytes[start..end], doors);
            Written { bytes, size: end }
        }
        Packet::Acknowledgement { from, to, number } => {
            let bytes = without_doors(w.acknowledgement, from, to, number, count);
            Written { bytes, size: start }
        }
    }
}

// The bytes of a packet, followed by 0, and its size; or 12.
#[tactic(auto, unfolding(crate::specs::Packets::write))]
pub fn write(p: Packet) -> Result<Written, Refusal>
    ensures { write_meant result ≡ write p }
{
    if !good_ends(p) {
        return Err(Refusal::MalformedPacket);
    }
    Ok(write_in(p, WIDE))
}
