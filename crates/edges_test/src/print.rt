// The parts of a line.
use column::error::Refusal;
use std::fmt;

// A text of several lines as one, a bar for each line's end.
#[derive(Drop)]
pub struct Barred<'a>(pub &'a [u8]);

impl fmt::Display for Barred<'_> {
    fn fmt<W: fmt::Write>(&self, f: &mut fmt::Formatter<W>) -> fmt::Result {
        for byte in self.0 {
            let shown = if *byte == b'\n' { b'|' } else { *byte };
            write!(f, "{}", char::from(shown))?;
        }
        Ok(())
    }
}

// By what a call is refused.
#[derive(Drop)]
pub struct Refused(pub Refusal);

impl fmt::Display for Refused {
    fn fmt<W: fmt::Write>(&self, f: &mut fmt::Formatter<W>) -> fmt::Result {
        write!(f, "refused {}", self.0.number())
    }
}
