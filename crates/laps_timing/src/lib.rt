// What the timing programs share: the tree of their laps, the number that they read, and the fold of what a lap left into one number.
#![tactic(auto)]

ghost use Rattle.std.specs.Prelude.{◌≡◌, map};
ghost use Rattle.std.specs.Int.Bits.{bit_or};
ghost use Rattle.laps_timing.specs.Laps.{heap_with, folded, number_of};

use column::tree::{ASCENDING, Tree};

// A sum is below it, so that one more lap is held.
const RANGE: u64 = 16777216;

// What a sum is multiplied by before a lap is added, so that another order of laps gives another sum.
const FACTOR: u64 = 31;

// Of a number eight digits are kept, so that one more is held.
const KEPT: u64 = 100000000;

// The parents of a heap: that of columns 2k + 1 and 2k + 2 is k.
const PARENTS: [u8; 16] = [0, 0, 0, 1, 1, 2, 2, 3, 3, 4, 4, 5, 5, 6, 6, 7];

// A byte, joined to each of the numbers.
fn joined(byte: u8, mut numbers: [u8; 16]) -> [u8; 16]
    ensures { result ≡ map (bit_or byte) numbers }
{
    for n in numbers.iter_mut() {
        *n = byte | *n;
    }
    numbers
}

// The columns as a heap. A byte is joined to every number of the tree: as 0 it changes none, and as
// one that is read it leaves no number known when the program is compiled, so that no test of the tree can be made then.
pub fn heap(columns: usize, read: u8) -> Tree
    ensures { result ≡ heap_with columns read }
{
    Tree {
        columns,
        root: read as usize,
        up: joined(read, PARENTS),
        first: joined(read, ASCENDING),
        watch: false,
    }
}

// The sum after a lap that left n.
pub fn fold(sum: u64, n: u64) -> u64
    ensures { result ≡ folded sum n }
{
    (sum % RANGE * FACTOR + n % RANGE) % RANGE
}

// The number that a text begins with, its last nine digits where it has more. By hand, since the library's `parse` refuses a number too large for its
// type, and a text that goes on behind it.
pub fn number(text: &[u8]) -> u64
    ensures { result ≡ number_of text.now }
{
    let mut n: u64 = 0;
    for byte in text {
        match *byte {
            b'0'..=b'9' => n = n % KEPT * 10 + (*byte - b'0') as u64,
            _ => return n,
        }
    }
    n
}
