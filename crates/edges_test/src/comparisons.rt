// Two columns' journals compared in short buffers: "written into a lent buffer from its start, and their length is answered; 11, tested last, if they don't fit".
use crate::buffer::{FILLED, Lent};
use crate::print::Barred;
use journals::comparison::compare;
use std::io;

// More than what is missing takes.
const ROOM: usize = 30;

// The comparison is lent the first `size` bytes of the buffer.
fn case(out: io::Stdout, one: &str, two: &str, size: usize) -> io::Result<()> {
    let one = one.as_bytes();
    let two = two.as_bytes();
    let mut buffer = [FILLED; ROOM];
    print!(out;
        "journals {} and {}, {size} bytes: ",
        Barred(one),
        Barred(two)
    )?;
    if let Some(lent) = buffer.get_mut(..size) {
        let written = compare(one, two, lent);
        let lent = Lent {
            buffer: &buffer,
            at: 0,
            written,
        };
        print!(out; "{lent}")?;
    }
    println!(out)
}

pub fn cases(out: io::Stdout) -> io::Result<()> {
    // A line of 11 bytes is missing of the first journal, one of 12 of the second.
    let missing = "column=0\nsent=1,1,7\nsent=1,2,8\n";
    let other = "column=1\ngot=2,3,8\nsent=2,0,10\n";
    for size in [ROOM, 23, 22, 12, 11, 10, 0] {
        case(out, missing, other, size)?;
    }
    let sent = "column=0\nsent=1,1,7\n";
    let sent_back = "column=1\nsent=1,0,7\n";
    for size in [11, 10] {
        case(out, sent, "column=1\n", size)?;
    }
    for size in [11, 10] {
        case(out, "column=0\n", sent_back, size)?;
    }
    case(out, sent, "column=1\ngot=1,0,7\n", 0)?;
    case(out, sent, "column=0\n", 0)?;
    let twice = "column=0\nsent=1,1,7\nsent=1,1,7\n";
    let unsent = "column=0\nsent=1,1,7\ngot=1,1,7\n";
    case(out, twice, "column=1\n", 0)?;
    case(out, unsent, "column=1\n", 0)
}
