// The parts of a line. Each type prints other words: its impl is like the next in form alone.
use column::error::Refusal;
use column::frame::Frame;
use column::packet::Packet;
use std::fmt;

// What a place without a packet has to hold. It is said here once more: a test of the library does not take its word for it.
const ZEROS: Packet = Packet::Message {
    from: 0,
    to: 0,
    number: 0,
    doors: 0,
};

// Kind, from, to, number and, of a message, the doors as one number.
#[derive(Drop)]
pub struct Shown(pub Packet);

impl fmt::Display for Shown {
    fn fmt<W: fmt::Write>(&self, f: &mut fmt::Formatter<W>) -> fmt::Result {
        match self.0 {
            Packet::Message {
                from,
                to,
                number,
                doors,
            } => write!(f, "3,{from},{to},{number},{doors}"),
            Packet::Acknowledgement { from, to, number } => write!(f, "4,{from},{to},{number}"),
        }
    }
}

// How many packets a frame has, or its refusal, and how many of the places hold a packet.
#[derive(Drop)]
pub struct Line<'a>(pub &'a Result<Frame, Refusal>);

impl fmt::Display for Line<'_> {
    fn fmt<W: fmt::Write>(&self, f: &mut fmt::Formatter<W>) -> fmt::Result {
        match self.0 {
            Ok(frame) => {
                let filled = frame.packets.iter().filter(|p| **p != ZEROS).count();
                write!(f, "count={} filled={filled}", frame.count)
            }
            Err(refusal) => write!(f, "{refusal} filled=0"),
        }
    }
}
