// Frames of document 02's limits: none, one, 512 and 513 packets, and bad packets at the first, a middle and the last place. Packet k has order k.
use crate::print::{Line, Shown};
use column::codec::{ACKNOWLEDGEMENT_SIZE, MESSAGE_SIZE};
use column::frame::read_frame;
use column::packet::CAPACITY;
use std::array::from_fn;
use std::io;

const BOTH_SIZE: usize = MESSAGE_SIZE + ACKNOWLEDGEMENT_SIZE;

// 513 messages, and one byte.
const LONGEST: usize = (CAPACITY + 1) * MESSAGE_SIZE + 1;

type Bytes = [u8; LONGEST];

// The message from column 0 to column 1 with order k.
fn message(k: usize) -> [u8; MESSAGE_SIZE] {
    let [high, low] = ((k % 65536) as u16).to_be_bytes();
    [3, 0, 1, 0, 0, high, low, 7, 8, 9, 10, 11, 12, 13, 14]
}

// The acknowledgement from column 1 to column 0 of order k.
fn acknowledgement(k: usize) -> [u8; ACKNOWLEDGEMENT_SIZE] {
    let [high, low] = ((k % 65536) as u16).to_be_bytes();
    [4, 1, 0, 0, 0, high, low]
}

// Both of order k.
fn both(k: usize) -> [u8; BOTH_SIZE] {
    let mut bytes = [0; BOTH_SIZE];
    bytes[..MESSAGE_SIZE].copy_from_slice(&message(k));
    bytes[MESSAGE_SIZE..].copy_from_slice(&acknowledgement(k));
    bytes
}

// The longest frames of packets 0, 1, 2 and so on, of each kind and of both in turn.
#[derive(Drop)]
struct Frames {
    messages: Bytes,
    acknowledgements: Bytes,
    both: Bytes,
}

// The last packet shows that none before it is missing.
fn show_frame(out: io::Stdout, name: &str, bytes: &[u8]) -> io::Result<()> {
    let frame = read_frame(bytes);
    print!(out; "{name}: {}", Line(&frame))?;
    if let Ok(frame) = frame {
        let packets = &frame.packets[..frame.count];
        if let Some(last) = packets.last() {
            print!(out; " last={}", Shown(*last))?;
        }
    }
    println!(out)
}

fn counts(out: io::Stdout, frames: &Frames) -> io::Result<()> {
    let messages = &frames.messages;
    let acknowledgements = &frames.acknowledgements;
    let both = &frames.both;
    let full = CAPACITY * MESSAGE_SIZE;
    let full_of_acknowledgements = CAPACITY * ACKNOWLEDGEMENT_SIZE;
    let full_of_both = 256 * BOTH_SIZE;
    let one = &acknowledgements[..ACKNOWLEDGEMENT_SIZE];
    let most = &acknowledgements[..full_of_acknowledgements];
    let one_more = &acknowledgements[..513 * ACKNOWLEDGEMENT_SIZE];
    let a_byte_more = &acknowledgements[..full_of_acknowledgements + 1];
    show_frame(out, "no packet", &messages[..0])?;
    show_frame(out, "a message", &messages[..MESSAGE_SIZE])?;
    show_frame(out, "an acknowledgement", one)?;
    show_frame(out, "a message and an acknowledgement", &both[..BOTH_SIZE])?;
    show_frame(out, "511 messages", &messages[..511 * MESSAGE_SIZE])?;
    show_frame(out, "512 messages", &messages[..full])?;
    show_frame(out, "512 acknowledgements", most)?;
    show_frame(out, "512 packets of both kinds", &both[..full_of_both])?;
    show_frame(out, "513 messages", &messages[..513 * MESSAGE_SIZE])?;
    show_frame(out, "513 acknowledgements", one_more)?;
    show_frame(
        out,
        "513 packets of both kinds",
        &both[..full_of_both + MESSAGE_SIZE],
    )?;
    show_frame(out, "512 messages and a byte", &messages[..full + 1])?;
    show_frame(out, "512 acknowledgements and a byte", a_byte_more)
}

fn partial(out: io::Stdout, frames: &Frames) -> io::Result<()> {
    let messages = &frames.messages;
    let acknowledgements = &frames.acknowledgements;
    let last = &messages[..CAPACITY * MESSAGE_SIZE - 1];
    let last_acknowledgement = &acknowledgements[..CAPACITY * ACKNOWLEDGEMENT_SIZE - 1];
    show_frame(out, "a byte", &messages[..1])?;
    show_frame(out, "a message of 14 bytes", &messages[..14])?;
    show_frame(out, "an acknowledgement of 6 bytes", &acknowledgements[..6])?;
    show_frame(out, "two messages, the second of 14 bytes", &messages[..29])?;
    show_frame(out, "two messages and 6 bytes", &messages[..36])?;
    show_frame(out, "512 messages, the last of 14 bytes", last)?;
    show_frame(
        out,
        "512 acknowledgements, the last of 6 bytes",
        last_acknowledgement,
    )
}

// The first bytes of a frame, each time with another byte at a place. The size is theirs, not that of the list of changes.
fn changed(
    out: io::Stdout,
    frame: &Bytes,
    size: usize,
    changes: &[(&str, usize, u8)],
) -> io::Result<()> {
    for (name, place, value) in changes {
        let mut bytes = *frame;
        if let Some(byte) = bytes.get_mut(*place) {
            *byte = *value;
        }
        if let Some(first) = bytes.get(..size) {
            show_frame(out, name, first)?;
        }
    }
    Ok(())
}

fn bad(out: io::Stdout, frames: &Frames) -> io::Result<()> {
    let of_three = [
        ("three messages, the second of kind 0", 15, 0),
        ("three messages, the second of kind 5", 15, 5),
        ("three messages, the second of kind 4", 15, 4),
        ("three messages, the last to its sender", 32, 0),
        ("three messages, the first from column 16", 1, 16),
        ("three messages, the first to column 15", 2, 15),
    ];
    let of_three_acknowledgements = [("three acknowledgements, the first of kind 3", 0, 3)];
    let last = [("512 messages, the last of kind 5", 511 * MESSAGE_SIZE, 5)];
    changed(out, &frames.messages, 45, &of_three)?;
    changed(
        out,
        &frames.acknowledgements,
        21,
        &of_three_acknowledgements,
    )?;
    changed(out, &frames.messages, CAPACITY * MESSAGE_SIZE, &last)
}

// "everywhere else the old kinds are now 12"
fn old(out: io::Stdout, frames: &Frames) -> io::Result<()> {
    let alone = [("a message of kind 1", 0, 1)];
    let alone_acknowledgement = [("an acknowledgement of kind 2", 0, 2)];
    let second = [("three messages, the second of kind 1", 15, 1)];
    let last = [("three acknowledgements, the last of kind 2", 14, 2)];
    changed(out, &frames.messages, 15, &alone)?;
    changed(out, &frames.acknowledgements, 7, &alone_acknowledgement)?;
    changed(out, &frames.messages, 45, &second)?;
    changed(out, &frames.acknowledgements, 21, &last)
}

pub fn show(out: io::Stdout) -> io::Result<()> {
    let frames = Frames {
        messages: from_fn(|i| message(i / MESSAGE_SIZE)[i % MESSAGE_SIZE]),
        acknowledgements: from_fn(|i| {
            acknowledgement(i / ACKNOWLEDGEMENT_SIZE)[i % ACKNOWLEDGEMENT_SIZE]
        }),
        both: from_fn(|i| both(i / BOTH_SIZE)[i % BOTH_SIZE]),
    };
    counts(out, &frames)?;
    partial(out, &frames)?;
    bad(out, &frames)?;
    old(out, &frames)
}
