// A packet as two words of the network: a head with the kind, the ends and the number, and the doors. The conversions stand by name, in the factors of the
// definitions of Words. A `From` would be no plainer: no derive knows this format, a head alone is no packet, and two words are two arguments.
ghost use Rattle.std.specs.Prelude.{◌≡◌};
ghost use Rattle.bank.specs.Words.{placed, head_of, packet_of, receiver_in, sender_in};

use column::packet::{NUMBERS, Number, Packet};

// The factors of a head's parts.
pub const ENDS: u64 = 256;

pub const PAIRS: u64 = ENDS * ENDS;

pub const ACKNOWLEDGING: u64 = NUMBERS * PAIRS;

fn placed(from: u8, to: u8, number: Number) -> u64
    ensures { result ≡ placed from to number }
{
    ((from as u64) * ENDS + (to as u64)) * NUMBERS + (number as u64)
}

// The first word of a packet.
pub fn head(p: Packet) -> u64
    ensures { result ≡ head_of p }
{
    match p {
        Packet::Message {
            from,
            to,
            number,
            ..
        } => placed(from, to, number),
        Packet::Acknowledgement { from, to, number } => ACKNOWLEDGING + placed(from, to, number),
    }
}

// To whom the packet of this head goes.
pub fn receiver_in(head: u64) -> usize
    ensures { result ≡ receiver_in head }
{
    (head / NUMBERS % ENDS) as usize
}

// Who sent the packet of this head.
pub fn sender_in(head: u64) -> usize
    ensures { result ≡ sender_in head }
{
    (head / (NUMBERS * ENDS) % ENDS) as usize
}

// The packet of two words; the doors of an acknowledgement are not looked at.
pub fn packet(head: u64, doors: u64) -> Packet
    ensures { result ≡ packet_of head doors }
{
    let from = sender_in(head) as u8;
    let to = receiver_in(head) as u8;
    let number = (head % NUMBERS) as Number;
    if head < ACKNOWLEDGING {
        return Packet::Message {
            from,
            to,
            number,
            doors,
        };
    }
    Packet::Acknowledgement { from, to, number }
}
