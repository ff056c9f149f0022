// What the converter answers: the packet's size or the refusal, and all fifteen bytes.
use column::codec::MESSAGE_SIZE;
use column::converter::convert;
use std::io;

pub fn show(out: io::Stdout, s: &[u8]) -> io::Result<()> {
    let bytes = match convert(s) {
        Ok(written) => {
            print!(out; "converted={} ", written.size)?;
            written.bytes
        }
        Err(refusal) => {
            print!(out; "unconverted={} ", refusal.number())?;
            [0; MESSAGE_SIZE]
        }
    };
    // A loop, since a type with a `Display` would be longer and print these bytes alone.
    for byte in bytes {
        print!(out; "{byte:02x}")?;
    }
    println!(out)
}
