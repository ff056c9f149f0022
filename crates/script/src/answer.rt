// The text that a line of a script answers. The buffer and the place in it go apart for speed, as in `text::writing`, so that no type holds them and each function
// that writes asks for the room of the longest text. A place in the buffer and the number of a column have nothing to do with one another.
ghost use Rattle.std.specs.Prelude.{◌+◌, ◌≤◌, length};
ghost use Rattle.column.specs.Refusals.{refusal_number};
ghost use Rattle.list.specs.Closing.{longest_list};
ghost use Rattle.text.specs.Text.{step_ok, refused_text, Writes};
ghost use Rattle.script.specs.Scripts.{steps_text};
ghost use Rattle.script.specs.inner.ScriptLines.{WritesColumn};

use column::error::Refusal;
use column::state::Column;
use list::list::put_list;
use text::writing::{put_all, put_field};

pub(crate) fn put_refused(out: &mut [u8], at: usize, refusal: Refusal) -> usize
    requires { at + longest_list ≤ length out.old }
    ensures { Writes result out.new out.old at (refused_text (refusal_number refusal)) }
{
    put_field(out, at, b"refused=", u64::from(refusal.number()))
}

// What an accepted step says.
pub(crate) fn put_step(out: &mut [u8], at: usize) -> usize
    requires { at + longest_list ≤ length out.old }
    ensures { Writes result out.new out.old at step_ok }
{
    put_all(out, at, b"step=ok\n")
}

// What a dispatch of so many steps says.
pub(crate) fn put_steps(out: &mut [u8], at: usize, steps: usize) -> usize
    requires { at + longest_list ≤ length out.old }
    ensures { Writes result out.new out.old at (steps_text steps) }
{
    let end = put_field(out, at, b"steps=", steps as u64);
    put_all(out, end, b"step=ok\n")
}

// The list of column i, whose place is c, of a bank that has so many columns and of which this is known. A number that no place has is taken as that number less a
// multiple of 16.
pub(crate) fn put_column(
    out: &mut [u8],
    at: usize,
    known: Result<u16, Refusal>,
    columns: usize,
    i: usize,
    c: Column,
) -> usize
    requires { at + longest_list ≤ length out.old }
    ensures { WritesColumn result out.new out.old at known columns i c }
{
    if let Err(refusal) = known {
        return put_refused(out, at, refusal);
    }
    if columns <= i {
        return put_refused(out, at, Refusal::OutOfBank);
    }
    if !c.running {
        return put_refused(out, at, Refusal::Halted);
    }
    put_list(out, at, i % 16, c)
}
