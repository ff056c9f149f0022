// The parts of a line.
use std::fmt;

// Two digits for each byte.
#[derive(Drop)]
pub struct Hex<'a>(pub &'a [u8]);

impl fmt::Display for Hex<'_> {
    fn fmt<W: fmt::Write>(&self, f: &mut fmt::Formatter<W>) -> fmt::Result {
        for byte in self.0 {
            write!(f, "{byte:02x}")?;
        }
        Ok(())
    }
}

// The columns whose bits are set, lowest first, with a comma before each but the first. That of handed_test has braces: what both share would be a
// public type of the core, which prints no sets.
#[derive(Drop)]
pub struct Set(pub u16);

impl fmt::Display for Set {
    fn fmt<W: fmt::Write>(&self, f: &mut fmt::Formatter<W>) -> fmt::Result {
        let set = self.0;
        let members = (0..16u32).filter(|i| (set >> i) % 2 == 1);
        for (before, member) in members.enumerate() {
            if 0 < before {
                write!(f, ",")?;
            }
            write!(f, "{member}")?;
        }
        Ok(())
    }
}
