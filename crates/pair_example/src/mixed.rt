// A line between a new end and an old one, over which the old kinds go: the converter is where packets enter the line and where they leave it.
// The old end's core writes and reads as every other; what it is handed and hands on is converted before and after.
use crate::controller::Controller;
use crate::failure::Failure;
use crate::line::packet_bytes;
use crate::print::Hex;
use column::codec::{Written, read, write};
use column::converter::convert;
use column::outcome::Answer;
use column::packet::Number;
use column::tree::{ASCENDING, Tree};
use std::io;

const NEW_END: usize = 0;

const OLD_END: usize = 1;

fn show_packet(out: io::Stdout, key: &str, written: &Written) -> io::Result<()> {
    println!(out; "{key}={}", Hex(packet_bytes(written)))
}

// What a step puts, as it is written, as it goes over the line, and as it is on the other side of it. None gets there that the converter refuses.
fn over(out: io::Stdout, answer: Answer) -> Result<Option<Written>, Failure> {
    let Answer::Put(p) = answer else {
        return Ok(None);
    };
    let written = write(p)?;
    show_packet(out, "new", &written)?;
    match convert(packet_bytes(&written)) {
        Ok(narrow) => {
            show_packet(out, "old", &narrow)?;
            let widened = convert(packet_bytes(&narrow))?;
            show_packet(out, "new", &widened)?;
            Ok(Some(widened))
        }
        Err(refusal) => {
            println!(out; "{refusal}")?;
            Ok(None)
        }
    }
}

// The packet that came over the line is taken.
fn received(end: &mut Controller, written: &Written) -> Result<(), Failure> {
    let reading = read(packet_bytes(written))?;
    end.take(reading.packet)?;
    Ok(())
}

// The order after this number goes down over the line, and its acknowledgement up; then what both ends hold.
fn order_after(out: io::Stdout, number: Number) -> Result<(), Failure> {
    let t = Tree {
        columns: 2,
        root: NEW_END,
        up: [0; 16],
        first: ASCENDING,
        watch: false,
    };
    let mut root = Controller::new(t, NEW_END)?;
    let mut child = Controller::new(t, OLD_END)?;
    root.column.number = number;
    root.order(1)?;
    if let Some(message) = over(out, root.send()?)? {
        received(&mut child, &message)?;
        if let Some(acknowledgement) = over(out, child.ack()?)? {
            received(&mut root, &acknowledgement)?;
        }
    }
    println!(out; "held={}", root.column.number)?;
    println!(out; "held={}", child.column.number)?;
    Ok(())
}

// The highest number that the old kinds carry, and the one after it, which does not get over the line: 18.
pub fn show(out: io::Stdout) -> Result<(), Failure> {
    order_after(out, 65534)?;
    order_after(out, 65535)
}
