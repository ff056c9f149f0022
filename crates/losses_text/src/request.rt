// A table with a step count as text, and the counts of its losses or the refusal that answers them.
ghost use Rattle.std.specs.Prelude.{◌≤◌, ◌≡◌, length};
ghost use Rattle.column.specs.Refusals.{meant};
ghost use Rattle.text.specs.Text.{number_meant, Writes, Puts};
ghost use Rattle.losses_text.specs.LossTexts.{step_count, counts_text, losses_text};
ghost use Rattle.losses_text.specs.inner.LossAnswers.{longest_counts, asked_given, losses_in};

use column::error::Refusal;
use column::tree::Tree;
use losses::count::{Losses, check_losses, count_losses};
use table::table::{LIMIT, read_table};
use text::reading::read_keyed;
use text::search::line_end;
use text::writing::put_field;

// Room for three lines of the longest number that is counted, 256.
pub const COUNTS: usize = 27;

// The step count of a text that is its line, with the byte 10, and nothing else.
fn step_count(text: &[u8]) -> Option<usize>
    ensures { number_meant result ≡ step_count text.now }
{
    let end = line_end(text, 0)?;
    if end + 1 != text.len() {
        return None;
    }
    read_keyed(&text[..end], b"after=", 3)
}

// What is asked of a tree by what follows its table; or 2, 3, 23, 13.
fn asked(t: Tree, rest: &[u8]) -> Result<Losses, Refusal>
    ensures { meant result ≡ asked_given t rest.now }
{
    check_losses(t)?;
    let steps = step_count(rest).ok_or(Refusal::MalformedLine)?;
    count_losses(t, steps)
}

// What is asked by an input; 13 of one past the limit, what its table is refused with, or 2, 3, 23, 13. `begin` of `script` begins alike; what they share is a
// test and a call.
fn losses_of(input: &[u8]) -> Result<Losses, Refusal>
    ensures { meant result ≡ losses_in input.now }
{
    if LIMIT < input.len() {
        return Err(Refusal::MalformedLine);
    }
    let table = read_table(input)?;
    let rest = input.get(table.end..).unwrap_or_default();
    asked(table.tree, rest)
}

fn put_counts(out: &mut [u8], l: Losses) -> usize
    ensures { Puts result out.new out.old 0 (counts_text l) }
{
    let lost = put_field(out, 0, b"kept=", l.kept as u64);
    let none = put_field(out, lost, b"lost=", l.lost as u64);
    put_field(out, none, b"none=", l.none as u64)
}

// `fastest_text` answers alike, what it reads and with room of its own. What both share is the call that puts a refusal.
fn put_answer(input: &[u8], out: &mut [u8]) -> usize
    requires { longest_counts ≤ length out.old }
    ensures { Writes result out.new out.old 0 (losses_text input.now) }
{
    match losses_of(input) {
        Ok(losses) => put_counts(out, losses),
        Err(refusal) => put_field(out, 0, b"refused=", u64::from(refusal.number())),
    }
}

// The text that answers a table with a step count, written into the lent buffer from its start; answers its length.
pub fn answer(input: &[u8], out: &mut [u8; COUNTS]) -> usize
    ensures { Writes result out.new out.old 0 (losses_text input.now) }
{
    put_answer(input, out)
}
