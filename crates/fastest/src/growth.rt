// A tree that grows by one column at a time.
ghost use Rattle.std.specs.Prelude.{◌+◌, ◌-◌, ◌≤◌, ◌<◌, ◌≡◌, get_or};
ghost use Rattle.fastest.specs.Strategy.{soonest, with_column, grown};

use crate::request::Request;

// Beside each other, since a tree holds the parents as they are here.
#[derive(Clone, Copy)]
pub struct Growth {
    // Each column's parent.
    pub up: [u8; 16],
    // When each column sends next.
    pub next: [usize; 16],
}

// Which of the first n columns sends next; of several the lowest. The array has places for columns that are still to come, as there is no heap. A type for n,
// or for a column below 16, would be taken apart at each place.
#[tactic(auto, unfolding(crate::specs::Strategy::soonest))]
fn soonest(next: &[usize; 16], n: usize) -> usize
    requires { n ≤ 16 }
    ensures { (result ≡ soonest next.now n) × (result < 16) }
{
    let mut best = 0;
    for i in 0..n {
        if next[i] < next[best] {
            best = i;
        }
    }
    best
}

// With column c, to which the one that sends next sends.
#[tactic(auto, unfolding(crate::specs::Strategy::with_column))]
fn with_column(g: Growth, c: usize, r: Request) -> Growth
    requires { (c < 16) × (get_or g.next (soonest g.next c) 0 ≤ 4080) × (r.delay ≤ 255) × (r.gap ≤ 255) }
    ensures { result ≡ with_column r.delay r.gap c g }
{
    let mut d = g;
    let sender = soonest(&d.next, c);
    let time = d.next[sender];
    d.up[c] = sender as u8;
    d.next[sender] = time + r.gap;
    d.next[c] = time + r.delay;
    d
}

// The root and the other columns that are asked for.
#[tactic(auto, unfolding(crate::specs::Strategy::grown))]
pub fn grow(r: Request) -> Growth
    requires { (0 < r.columns) × (r.columns ≤ 16) × (r.delay ≤ 255) × (r.gap ≤ 255) }
    ensures { result ≡ grown r.delay r.gap (r.columns - 1) }
{
    let mut g = Growth {
        up: [0; 16],
        next: [0; 16],
    };
    for c in 1..r.columns {
        g = with_column(g, c, r);
    }
    g
}
