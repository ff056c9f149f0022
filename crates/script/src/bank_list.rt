// The closing list of a column of a bank. The buffer is lent whole with a place, since a place past its end is refused here.
ghost use Rattle.std.specs.Prelude.{◌<◌, ◌≡◌};
ghost use Rattle.column.specs.Refusals.{refusal_of};
ghost use Rattle.bank.specs.Banks.{state};
ghost use Rattle.list.specs.Closing.{listed_meant};
ghost use Rattle.script.specs.BankLists.{RefusesListing, list as Closing·list};

use bank::bank::{Bank, Network, Words};
use bank::validity::check_acting;
use column::error::Refusal;
use list::list::write_list;

// What a list is refused with before its place is looked at.
pub fn check_list(b: Bank, i: usize, heads: &Words) -> Result<(), Refusal>
    ensures { RefusesListing (refusal_of result) b heads.now i }
{
    check_acting(b, i, heads)?;
    if !b.columns[i].running {
        return Err(Refusal::Halted);
    }
    Ok(())
}

// The length of the list that is written from `at` on, or by what it is refused. The doors that packets carry are not looked at.
pub fn list(
    b: Bank,
    i: usize,
    network: &Network,
    buf: &mut [u8],
    at: usize,
) -> Result<usize, Refusal>
    ensures { listed_meant result buf.new ≡ Closing·list (state b network.now.heads network.now.doors) i buf.old at }
{
    check_list(b, i, &network.heads)?;
    if buf.len() < at {
        return Err(Refusal::NoRoom);
    }
    write_list(i, b.columns[i], &mut buf[at..])
}
