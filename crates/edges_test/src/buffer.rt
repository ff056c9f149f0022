// A lent buffer after a call.
use crate::print::{Barred, Refused};
use column::error::Refusal;
use std::fmt;

// What the buffer holds before a call; no text that is written has this byte.
pub const FILLED: u8 = 170;

// The buffer, where the call was to write into it, and how many bytes it wrote there or by what it was refused.
#[derive(Drop)]
pub struct Lent<'a> {
    pub buffer: &'a [u8],
    pub at: usize,
    pub written: Result<usize, Refusal>,
}

// How many bytes are not as they were filled.
fn changed(bytes: &[u8]) -> usize {
    bytes.iter().filter(|b| **b != FILLED).count()
}

// The text that was written, and how much else was; or the refusal, and how much was written.
impl fmt::Display for Lent<'_> {
    fn fmt<W: fmt::Write>(&self, f: &mut fmt::Formatter<W>) -> fmt::Result {
        let length = match self.written {
            Ok(length) => length,
            Err(refusal) => {
                let all = changed(self.buffer);
                return write!(f, "{}, changed {all}", Refused(refusal));
            }
        };
        let Some((before, rest)) = self.buffer.split_at_checked(self.at) else {
            return Ok(());
        };
        let Some((text, after)) = rest.split_at_checked(length) else {
            return Ok(());
        };
        let (before, after) = (changed(before), changed(after));
        write!(
            f,
            "length {length}, changed before {before} and after {after}"
        )?;
        if text.is_empty() {
            return Ok(());
        }
        write!(f, ", {}", Barred(text))
    }
}
