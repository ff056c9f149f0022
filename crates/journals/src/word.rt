// A line of a journal as one word: its way, its kind, the other column and its number. One word is compared where there would be four fields.
// No conversion of the library has this layout. That a column is below sixteen is asked as a fact: it is a factor here, and a place elsewhere.
ghost use Rattle.std.specs.Prelude.{◌<◌, ◌≡◌};
ghost use Rattle.column.specs.Columns.{numbers};
ghost use Rattle.journals.specs.inner.LineWords.{byte_values, way_number, word, key_of, about_key, turned};

use crate::line::{Line, Way};
use column::packet::NUMBERS;

// The factors of a word's parts: the kind and the other column are a byte each.
const BYTE_VALUES: u64 = 256;

fn word(way: Way, kind: u64, other: u64, number: u64) -> u64
    requires { (kind < byte_values) × (other < byte_values) × (number < numbers) }
    ensures { result ≡ word (way_number way) kind other number }
{
    ((way as u64 * BYTE_VALUES + kind) * BYTE_VALUES + other) * NUMBERS + number
}

// The word of a line. No two lines have the same word.
pub fn key_of(line: Line) -> u64
    ensures { result ≡ key_of line }
{
    word(
        line.way,
        line.kind.number(),
        line.other as u64,
        line.number as u64,
    )
}

// Whether a word is that of a line of a way about a column.
pub fn about(other: usize, way: Way, key: u64) -> bool
    ensures { result ≡ about_key other (way_number way) key }
{
    let there = (key / NUMBERS % BYTE_VALUES) as usize;
    key / (NUMBERS * BYTE_VALUES * BYTE_VALUES) == way as u64 && there == other
}

// The word of the line of a way about a column with the same kind and number.
pub fn turn(way: Way, other: usize, key: u64) -> u64
    requires { other < 16 }
    ensures { result ≡ turned (way_number way) other key }
{
    let kind = key / (NUMBERS * BYTE_VALUES) % BYTE_VALUES;
    word(way, kind, other as u64, key % NUMBERS)
}
