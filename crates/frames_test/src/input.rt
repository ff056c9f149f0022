// The frames of standard input, each after its size in two bytes, high first: with all their packets, and below that what the converter answers of the
// same bytes.
use crate::converted;
use crate::print::{Line, Shown};
use column::frame::read_frame;
use std::io;
use streams::read_full;

const LIMIT: usize = 65536;

fn show_frame(out: io::Stdout, bytes: &[u8]) -> io::Result<()> {
    let frame = read_frame(bytes);
    print!(out; "{}", Line(&frame))?;
    if let Ok(frame) = frame {
        for packet in &frame.packets[..frame.count] {
            print!(out; " {}", Shown(*packet))?;
        }
    }
    println!(out)
}

// Two lines.
fn show_bytes(out: io::Stdout, bytes: &[u8]) -> io::Result<()> {
    show_frame(out, bytes)?;
    converted::show(out, bytes)
}

// The frames that are there whole.
fn show_frames(out: io::Stdout, input: &[u8]) -> io::Result<()> {
    let mut rest = input;
    while let Some((size, after)) = rest.split_first_chunk() {
        let size = u16::from_be_bytes(*size) as usize;
        if after.len() < size {
            return Ok(());
        }
        let (bytes, next) = after.split_at(size);
        show_bytes(out, bytes)?;
        rest = next;
    }
    Ok(())
}

// A read that fails is the end of the input, which is held in an array: no heap. pages_test has the same lines. One function of `streams` would call a
// closure of either, and so have a `requires`, which no public function has here.
pub fn show(mut input_stream: io::Stdin, out: io::Stdout) -> io::Result<()> {
    let mut input = [0u8; LIMIT];
    let (n, _) = read_full(&mut input_stream, &mut input);
    show_frames(out, &input[..n])
}
