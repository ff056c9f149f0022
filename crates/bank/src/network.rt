// The network's packets: put at the end, taken off, and those to a column that halts. None of these refuses: all deciding is done before, so that a refused call
// has written nothing. Heads and doors are two lists of words, as `state` says them, and the bank holds how many count: so a place and a count come beside the
// words, and what three functions ask of them is a test of a number, which a type would be made from and taken apart for.
ghost use Rattle.std.specs.Prelude.{◌≡◌, ◌+◌, ◌≤◌, ◌<◌, length, take};
ghost use Rattle.column.specs.Sets.{has};
ghost use Rattle.bank.specs.Networks.{closed_up, padded};
ghost use Rattle.bank.specs.inner.NetworkWords.{Appended, ClosedUp, Kept, Vanishes};

use crate::bank::Network;
use crate::words::{head, receiver_in};
use column::members::has;
use column::packet::{Packet, doors_of};

// The words past `place` move up by one, and place `last` is free.
fn close_up(words: &mut [u64], place: usize, last: usize)
    requires { (place ≤ last) × (last < length words.old) }
    ensures { words.new ≡ closed_up words.old place (last + 1) 0 }
{
    words.copy_within(place + 1..last + 1, place);
    words[last] = 0;
}

// Of the first `count` packets, those that are addressed to no member of m, moved up; answers how many they are.
fn keep(m: u16, count: usize, heads: &mut [u64], doors: &mut [u64]) -> usize
    requires { (count ≤ length heads.old) × (count ≤ length doors.old) }
    ensures { Kept (has m) count result heads.old doors.old heads.new doors.new }
{
    let mut kept: usize = 0;
    for j in 0..count {
        let head = heads[j];
        let word = doors[j];
        if !has(m, receiver_in(head)) {
            heads[kept] = head;
            doors[kept] = word;
            kept += 1;
        }
    }
    kept
}

fn clear(words: &mut [u64], from: usize, to: usize)
    requires { (from ≤ to) × (to ≤ length words.old) }
    ensures { words.new ≡ padded (take from words.old) to 0 words.old }
{
    words[from..to].fill(0);
}

impl Network {
    // The words of packet p are put behind those of `count` others.
    pub(crate) fn append(&mut self, p: Packet, count: usize)
        requires { count < 512 }
        ensures { Appended p count self.old.heads self.old.doors self.new.heads self.new.doors }
    {
        self.heads[count] = head(p);
        self.doors[count] = doors_of(p);
    }

    // The words of the packet at a place of `count` are gone. With the oldest, which a dispatcher takes, the place is no variable: only then do the others move
    // as one block, and not word by word.
    pub(crate) fn remove(&mut self, place: usize, count: usize)
        requires { (place < count) × (count ≤ 512) }
        ensures { ClosedUp place count self.old.heads self.old.doors self.new.heads self.new.doors }
    {
        let last = count - 1;
        if place == 0 {
            close_up(&mut self.heads, 0, last);
            close_up(&mut self.doors, 0, last);
            return;
        }
        close_up(&mut self.heads, place, last);
        close_up(&mut self.doors, place, last);
    }

    // The packets that are addressed to a member of m are gone, of `count`; answers how many are left.
    pub(crate) fn vanish(&mut self, m: u16, count: usize) -> usize
        requires { count ≤ 512 }
        ensures { Vanishes (has m) count result self.old.heads self.old.doors self.new.heads self.new.doors }
    {
        let kept = keep(m, count, &mut self.heads, &mut self.doors);
        clear(&mut self.heads, kept, count);
        clear(&mut self.doors, kept, count);
        kept
    }
}
