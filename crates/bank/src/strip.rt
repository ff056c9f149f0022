// A strip of columns that halts at once: a set of them, handed in as a mask with room for numbers that no bank has. That a tree has sixteen columns at most is asked
// as a fact: a type would be made from that test, and taken apart for the shift.
ghost use Rattle.std.specs.Prelude.{◌≡◌, ◌≤◌, IfOk};
ghost use Rattle.column.specs.Refusals.{refusal_of};
ghost use Rattle.column.specs.Sets.{has};
ghost use Rattle.column.specs.Columns.{stopped};
ghost use Rattle.bank.specs.inner.Returning.{own_halting};
ghost use Rattle.bank.specs.Steps.{with_stopped};

use crate::bank::Bank;
use column::error::Refusal;
use column::members::has;
use column::state::Column;

// Those who are to halt as a set of columns; or 4 of a member that the bank has not, then 5 of one that is none of those who run.
pub fn halting_set(columns: usize, running: u16, m: u32) -> Result<u16, Refusal>
    requires { columns ≤ 16 }
    ensures refuses { refusal_of result ≡ own_halting columns running m }
    ensures set { IfOk result (λ set. set ≡ m) }
{
    if m >> columns != 0 {
        return Err(Refusal::OutOfBank);
    }
    let set = m as u16;
    if set | running != running {
        return Err(Refusal::Halted);
    }
    Ok(set)
}

fn stopped(mut c: Column) -> Column
    ensures { result ≡ stopped c }
{
    c.running = false;
    c
}

// Every member of m is stopped.
pub fn stop(mut b: Bank, m: u16) -> Bank
    ensures { result ≡ with_stopped b (has m) }
{
    for j in 0..16usize {
        if has(m, j) {
            b.columns[j] = stopped(b.columns[j]);
        }
    }
    b
}
