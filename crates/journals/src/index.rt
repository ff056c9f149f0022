// Which words a journal has: the words of one remainder are chained, the newest first. How many of the lines are chained comes beside them while they are. That there
// are no more lines than places is asked as a fact: it is one of the text that was read.
ghost use Rattle.std.specs.Prelude.{◌+◌, ◌%◌, ◌≤◌, ◌<◌, ◌≡◌, length};
ghost use Rattle.journals.specs.inner.KeyedLines.{keys_in, lines_limit};
ghost use Rattle.journals.specs.inner.Chains.{buckets, Indexed, among, Chained};

use crate::lines::{KeyedLine, LINES};

// How many remainders there are: a prime, so that words of one pattern spread.
const BUCKETS: usize = 4093;

// A place is one more than that of the line, and 0 is none: as an option each would take twice the room. No heap, and so no map.
#[derive(Drop)]
pub struct Index {
    // For each remainder the place of its last word.
    pub heads: [u16; BUCKETS],
    // For each word the place of the one before it with its remainder. With two bytes, as a head has, a step of a chain would take an instruction more.
    pub links: [usize; LINES],
    // Each word once more, without its size. Through the lines, a step of a chain would take two instructions more.
    pub keys: [u64; LINES],
}

// The remainder of a word.
fn bucket_of(key: u64) -> usize
    ensures { result ≡ key % buckets }
{
    (key % BUCKETS as u64) as usize
}

impl Index {
    // An index of no word.
    pub const EMPTY: Index = Index {
        heads: [0; BUCKETS],
        links: [0; LINES],
        keys: [0; LINES],
    };

    // Chains word n, which is not among the n before it.
    fn add(&mut self, lines: &[KeyedLine], n: usize)
        requires { (n < length lines.now) × (length lines.now ≤ lines_limit) × Indexed (keys_in lines.now) n self.old }
        ensures { Indexed (keys_in lines.now) (n + 1) self.new }
    {
        let key = lines[n].key;
        let bucket = bucket_of(key);
        self.keys[n] = key;
        self.links[n] = self.heads[bucket] as usize;
        self.heads[bucket] = (n + 1) as u16;
    }

    // Whether a word is among the first n, which are chained. The lines and n are for the contract alone.
    pub fn has(&self, lines: &[KeyedLine], n: usize, key: u64) -> bool
        requires { (n ≤ length lines.now) × (length lines.now ≤ lines_limit) × Indexed (keys_in lines.now) n self.now }
        ensures { result ≡ among (keys_in lines.now) n key }
    {
        // A chain ends at place 0: it is followed, and nothing is counted.
        let mut next = self.heads[bucket_of(key)] as usize;
        while 0 < next {
            if self.keys[next - 1] == key {
                return true;
            }
            next = self.links[next - 1];
        }
        false
    }

    // Chains all words, as long as none of them is there twice.
    pub fn chain(&mut self, lines: &[KeyedLine]) -> bool
        requires { (length lines.now ≤ lines_limit) × Indexed (keys_in lines.now) 0 self.old }
        ensures { Chained result (keys_in lines.now) self.new }
    {
        for (n, line) in lines.iter().enumerate() {
            if self.has(lines, n, line.key) {
                return false;
            }
            self.add(lines, n);
        }
        true
    }
}
