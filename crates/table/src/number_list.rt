// A line of numbers divided by commas, behind its key: how many they are, and the first sixteen.
ghost use Rattle.std.specs.Prelude.{◌^◌, ◌<◌, ◌≡◌};
ghost use Rattle.text.specs.Pieces.{numbers, pieces, numerals};
ghost use Rattle.table.specs.inner.Held.{held};
ghost use Rattle.table.specs.inner.NumberLists.{with_one, list_of};

use text::reading::read_numeral;

// The numbers of a line: how many, and the first sixteen. There may be more than it has room for, so the length stands beside it.
#[derive(Clone, Copy)]
pub struct NumberList {
    pub count: usize,
    pub numbers: [u8; 16],
}

impl NumberList {
    #[tactic(auto, unfolding(crate::specs::inner::NumberLists::with_one))]
    fn with(self, number: usize) -> NumberList
        requires { (self.count < 2 ^ 63) × (number < 256) }
        ensures { result ≡ with_one self number }
    {
        let mut list = self;
        let n = list.count;
        list.count = n + 1;
        if n < 16 {
            list.numbers[n] = number as u8;
            return list;
        }
        list
    }
}

// The numerals of a text divided by commas; past the sixteenth they are counted alone.
fn numbers_in(text: &[u8]) -> Option<NumberList>
    ensures { result ≡ held list_of (numerals (pieces text.now)) }
{
    let mut list = NumberList {
        count: 0,
        numbers: [0; 16],
    };
    for piece in text.split(|b| *b == b',') {
        list = list.with(read_numeral(piece, 2)?);
    }
    Some(list)
}

// The numbers of a line that begins with a key.
pub fn numbers_of(line: &[u8], key: &[u8]) -> Option<NumberList>
    ensures { result ≡ held list_of (numbers key.now line.now) }
{
    numbers_in(line.strip_prefix(key)?)
}
