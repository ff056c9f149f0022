// The three lines that a table and a request begin with.
ghost use Rattle.std.specs.Prelude.{◌≡◌};
ghost use Rattle.text.specs.Pieces.{three_lines, ends_meant, Rising};

use crate::search::line_end;

// The places of the bytes 10 that end them.
#[derive(Clone, Copy)]
pub struct LineEnds {
    pub one: usize,
    pub two: usize,
    pub three: usize,
}

// Where the first three lines of an input end, or that it has fewer.
pub fn find_three_lines(input: &[u8]) -> Option<LineEnds>
    ensures input_value { ends_meant result input.now ≡ three_lines input.now }
    ensures rising { Rising result input.now }
{
    let one = line_end(input, 0)?;
    let two = line_end(input, one + 1)?;
    let three = line_end(input, two + 1)?;
    Some(LineEnds { one, two, three })
}
