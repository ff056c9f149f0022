// What the core's answer makes of the bank: one place is rewritten, and the packet is put unless its addressee is halted. The functions that
// decide it are handed the place, the count and who runs, never the whole bank: a struct of these would be made for each step, and taken apart in it.
ghost use Rattle.std.specs.Prelude.{◌≡◌, ◌≤◌, ◌<◌};
ghost use Rattle.bank.specs.Banks.{column_at};
ghost use Rattle.bank.specs.inner.Changes.{Delivers, Settles, SettlesTaken};

use crate::bank::{Bank, NO_COLUMN, Network};
use column::error::Refusal;
use column::members::has;
use column::outcome::{Answer, Outcome};
use column::packet::{CAPACITY, Packet, receiver};
use column::state::Column;

// Column i, or one that does not run where there is no such place: the definition `column_at` answers so, and no `Option`.
pub fn column_at(b: Bank, i: usize) -> Column
    ensures { result ≡ column_at b i }
{
    if 16 <= i {
        return NO_COLUMN;
    }
    b.columns[i]
}

// What a step makes of the place of its column and of the network's count.
#[derive(Clone, Copy)]
pub struct Change {
    pub column: Column,
    pub count: usize,
}

// Packet p is put where its addressee runs; answers how many packets are under way then.
fn deliver(running: u16, p: Packet, count: usize, network: &mut Network) -> Result<usize, Refusal>
    requires { count ≤ 512 }
    ensures { Delivers result running p count network.old.heads network.old.doors network.new.heads network.new.doors }
{
    if !has(running, receiver(p)) {
        return Ok(count);
    }
    if count == CAPACITY {
        return Err(Refusal::NetworkFull);
    }
    network.append(p, count);
    Ok(count + 1)
}

// The core's outcome o for the acting column, once a packet that the step takes is off.
pub fn settle(
    running: u16,
    o: Outcome,
    count: usize,
    network: &mut Network,
) -> Result<Change, Refusal>
    requires { count ≤ 512 }
    ensures { Settles result running o count network.old.heads network.old.doors network.new.heads network.new.doors }
{
    let column = o.column;
    match o.answer {
        Answer::Done => Ok(Change { column, count }),
        Answer::Put(p) | Answer::Left(p) => {
            let count = deliver(running, p, count, network)?;
            Ok(Change { column, count })
        }
    }
}

// The core's outcome o for the acting column, to which the packet at a place was given. That is taken off, unless it is left in its place: then there
// is room for the one that is put.
pub fn settle_taken(
    running: u16,
    place: usize,
    o: Outcome,
    count: usize,
    network: &mut Network,
) -> Result<Change, Refusal>
    requires { (place < count) × (count ≤ 512) }
    ensures { SettlesTaken result running place o count network.old.heads network.old.doors network.new.heads network.new.doors }
{
    match o.answer {
        Answer::Left(_) => settle(running, o, count, network),
        Answer::Done | Answer::Put(_) => {
            network.remove(place, count);
            settle(running, o, count - 1, network)
        }
    }
}
