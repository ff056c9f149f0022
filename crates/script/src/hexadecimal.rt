// Doors as hexadecimal digits: "`order=` with 16 lowercase hexadecimal digits (byte 0 first)".
ghost use Rattle.std.specs.Prelude.{◌≡◌};
ghost use Rattle.text.specs.Text.{number_meant};
ghost use Rattle.script.specs.inner.Hexadecimals.{digit_read, byte_read, doors_read};

// Document 01 asks that digits are matched by value and range. The kit's `hex` takes capital letters too, which are refused here.
#[tactic(auto, unfolding(crate::specs::inner::Hexadecimals::digit_read))]
fn digit(b: u8) -> Option<u8>
    ensures { number_meant result ≡ digit_read b }
{
    match b {
        b'0'..=b'9' => Some(b - b'0'),
        b'a'..=b'f' => Some(b - b'a' + 10),
        _ => None,
    }
}

fn byte(high: u8, low: u8) -> Option<u8>
    ensures { number_meant result ≡ byte_read high low }
{
    Some(digit(high)? * 16 + digit(low)?)
}

// The set of doors that sixteen hexadecimal digits mean, byte 0 first; of another text, none.
pub fn read_doors(text: &[u8]) -> Option<u64>
    ensures { number_meant result ≡ doors_read text.now }
{
    if text.len() != 16 {
        return None;
    }
    let mut bytes = [0; 8];
    for i in 0..8 {
        bytes[i] = byte(text[2 * i], text[2 * i + 1])?;
    }
    Some(u64::from_le_bytes(bytes))
}
