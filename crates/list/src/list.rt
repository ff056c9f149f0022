// The closing list of a column, written into a lent buffer, and the list of a column alone. The buffer and the place in it go apart for speed, as in
// `text::writing`, and a column's number goes beside it, since a column does not hold its own.
ghost use Rattle.std.specs.Prelude.{◌≤◌, ◌<◌, ◌≡◌, length};
ghost use Rattle.list.specs.Closing.{longest_list, doors_up_to, list_text, listed_meant, placed, lone_list};
ghost use Rattle.text.specs.Text.{divided, Puts};

use column::error::Refusal;
use column::state::{Column, check_validity};
use column::tree::Tree;
use text::writing::{put_all, put_field, put_next};

// "the longest list is 229"
pub const LONGEST: usize = 229;

// Room for the list under any number of 64 bits, which has up to eighteen digits more than that of a column of a bank.
const SCRATCH: usize = LONGEST + 18;

// The doors of a set, rising and divided by commas.
#[tactic(auto, using(crate::specs::laws::DoorLaws::within))]
fn put_doors(out: &mut [u8], at: usize, doors: u64) -> usize
    ensures { Puts result out.new out.old at (divided (doors_up_to 64 doors)) }
{
    let mut next = at;
    let mut first = true;
    let mut door: u64 = 0;
    // The doors above `door`. A `while` goes from one door of the set to the next, where a `for` would ask for each of 64.
    let mut rest = doors;
    while rest != 0 {
        let free = rest.trailing_zeros() as u64;
        door += free + 1;
        next = put_next(out, next, first, door);
        first = false;
        rest = (rest >> free) >> 1;
    }
    next
}

// The four lines, as much of them as has room. `put_table` of `fastest_text` has this form, and other lines.
pub fn put_list(out: &mut [u8], at: usize, i: usize, c: Column) -> usize
    ensures puts { Puts result out.new out.old at (list_text i c) }
    ensures c_len_bound { i < 16 → length (list_text i c) ≤ longest_list }
{
    let number = put_field(out, at, b"column=", i as u64);
    let occupied = put_field(out, number, b"number=", c.number as u64);
    let key = put_field(out, occupied, b"occupied=", c.doors.count_ones() as u64);
    let doors = put_all(out, key, b"doors=");
    let end = put_doors(out, doors, c.doors);
    put_all(out, end, b"\n")
}

// "The list writer is lent the mutable part that starts at that place": the list at its start, where it fits, and its length; otherwise every byte is as it was.
pub fn write_list(i: usize, c: Column, out: &mut [u8]) -> Result<usize, Refusal>
    ensures { listed_meant result out.new ≡ placed out.old 0 (list_text i c) }
{
    // It is put aside first, in an array with its length since there is no heap: the length is known before a byte of what is lent changes.
    let mut scratch = [0u8; SCRATCH];
    let n = put_list(&mut scratch, 0, i, c);
    if out.len() < n {
        return Err(Refusal::NoRoom);
    }
    put_all(out, 0, &scratch[..n]);
    Ok(n)
}

// The list of a column of which nothing but its tree and its state is known, at the start of what is lent: its length, or 2, 3, 4, 5, 11.
#[tactic(auto, unfolding(crate::specs::Closing::lone_list))]
pub fn lone_list(t: Tree, i: usize, c: Column, buf: &mut [u8]) -> Result<usize, Refusal>
    ensures { listed_meant result buf.new ≡ lone_list t i c buf.old }
{
    check_validity(t, i, c)?;
    if !c.running {
        return Err(Refusal::Halted);
    }
    write_list(i, c, buf)
}
