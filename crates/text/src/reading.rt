// Keys and numerals of a text.
ghost use Rattle.std.specs.Prelude.{◌≤◌, min, ◌≡◌, length};
ghost use Rattle.text.specs.Text.{numeral, starts_with, number_meant};
ghost use Rattle.text.specs.Pieces.{keyed};
ghost use Rattle.text.specs.inner.Texts.{digits};

// The value of digits alone, however many zeros lead. Document 01 asks that digits are matched by value and range.
fn value_of(text: &[u8]) -> Option<usize>
    requires { length text.now ≤ 10 }
    ensures { number_meant result ≡ digits 0 text.now }
{
    let mut value: usize = 0;
    for byte in text {
        match *byte {
            b'0'..=b'9' => value = value * 10 + usize::from(*byte - b'0'),
            _ => return None,
        }
    }
    Some(value)
}

// Ten digits at most, so that the value is held.
#[tactic(auto, using(crate::specs::laws::ReadingLaws::numeral_none, crate::specs::laws::ReadingLaws::numeral_long, crate::specs::laws::ReadingLaws::numeral_zero, crate::specs::laws::ReadingLaws::numeral_digits, crate::specs::laws::ReadingLaws::leading_one, crate::specs::laws::ReadingLaws::leading_other))]
fn numeral(text: &[u8], width: usize) -> Option<usize>
    requires { width ≤ 10 }
    ensures { number_meant result ≡ numeral width text.now }
{
    if text.is_empty() {
        return None;
    }
    if width < text.len() {
        return None;
    }
    if text.len() == 1 {
        return value_of(text);
    }
    if text[0] == b'0' {
        return None;
    }
    value_of(text)
}

// Whether a text begins with a key: the slice's own method, under a contract in the word that the definitions of texts have.
pub fn starts_with(text: &[u8], key: &[u8]) -> bool
    ensures { result ≡ starts_with key.now text.now }
{
    text.starts_with(key)
}

// The numeral of `width` digits at most behind the key that a line begins with.
fn keyed(line: &[u8], key: &[u8], width: usize) -> Option<usize>
    requires { width ≤ 10 }
    ensures { number_meant result ≡ keyed key.now width line.now }
{
    numeral(line.strip_prefix(key)?, width)
}

// The value of a numeral of `width` digits at most; of ten, where a longer one is asked for.
pub fn read_numeral(text: &[u8], width: usize) -> Option<usize>
    ensures { number_meant result ≡ numeral (min width 10) text.now }
{
    numeral(text, width.min(10))
}

// The value of the numeral after a key, of `width` digits at most; of ten, where a longer one is asked for.
pub fn read_keyed(line: &[u8], key: &[u8], width: usize) -> Option<usize>
    ensures { number_meant result ≡ keyed key.now (min width 10) line.now }
{
    keyed(line, key, width.min(10))
}
