// Numbers in any count of bytes, which the length of the slice says: a conversion of the library has one width. The two orders have a function each: one for both
// would ask for each byte from which end it comes. What is written goes by places, since of what an adapter such as `rev` writes nothing is known afterwards. Above
// eight bytes a reader answers 0, as `word` says.
ghost use Rattle.std.specs.Prelude.{◌≡◌, length};
ghost use Rattle.column.specs.Packets.{low_first, low_value, high_first, high_value, word};

// Eight bytes are what a u64 holds.
const WORD_SIZE: usize = 8;

// What at most eight bytes mean, the lowest first; 0 of more.
pub fn low_value(s: &[u8]) -> u64
    ensures { result ≡ word low_value s.now }
{
    if WORD_SIZE < s.len() {
        return 0;
    }
    let mut value: u64 = 0;
    for i in (0..s.len()).rev() {
        let byte = s[i] as u64;
        value = value * 256 + byte;
    }
    value
}

// What at most eight bytes mean, the highest first; 0 of more.
#[tactic(auto, unfolding(crate::specs::Packets::low_value))]
pub fn high_value(s: &[u8]) -> u64
    ensures { result ≡ word high_value s.now }
{
    if WORD_SIZE < s.len() {
        return 0;
    }
    let mut value: u64 = 0;
    for &byte in s {
        value = value * 256 + byte as u64;
    }
    value
}

// Fills the bytes with a number, the lowest first; what they cannot hold of it is left out.
pub fn put_low_first(out: &mut [u8], number: u64)
    ensures { out.new ≡ low_first (length out.old) number }
{
    let mut rest = number;
    for i in 0..out.len() {
        out[i] = (rest % 256) as u8;
        rest = rest / 256;
    }
}

// Fills the bytes with a number, the highest first; what they cannot hold of it is left out.
pub fn put_high_first(out: &mut [u8], number: u64)
    ensures { out.new ≡ high_first (length out.old) number }
{
    let mut rest = number;
    for i in (0..out.len()).rev() {
        out[i] = (rest % 256) as u8;
        rest = rest / 256;
    }
}
