// A line of a script.
ghost use Rattle.std.specs.Prelude.{◌≡◌};
ghost use Rattle.column.specs.Sets.{insert};
ghost use Rattle.text.specs.Text.{read, order_key, note_key, halt_key, after_key};
ghost use Rattle.text.specs.Pieces.{pieces, numerals};
ghost use Rattle.script.specs.Lines.{parsed_meant, doors_in, note_in, member_of, halt_after, halt_in, command_of};

use crate::hexadecimal::read_doors;
use bank::bank::Step;
use text::reading::{read_keyed, read_numeral};

// What a line asks for.
#[derive(Clone, Copy)]
pub enum Command {
    Perform(Step),
    List(usize),
    Dispatch(usize),
}

fn order(line: &[u8]) -> Option<Command>
    ensures { parsed_meant result ≡ doors_in (after_key order_key line.now) }
{
    let doors = read_doors(line.strip_prefix(b"order=")?)?;
    Some(Command::Perform(Step::Order(doors)))
}

// Two columns divided by a comma. A second comma is no digit, so that what follows the first is read only where there is no other.
fn note_columns(text: &[u8]) -> Option<Command>
    ensures { parsed_meant result ≡ note_in (read text.now) }
{
    let comma = text.iter().position(|byte| *byte == b',')?;
    let i = read_numeral(&text[..comma], 2)?;
    let j = read_numeral(&text[comma + 1..], 2)?;
    Some(Command::Perform(Step::Note(i, j)))
}

fn note(line: &[u8]) -> Option<Command>
    ensures { parsed_meant result ≡ note_in (after_key note_key line.now) }
{
    note_columns(line.strip_prefix(b"note=")?)
}

// A number that no bank has joins the set as member 16, which no bank has either.
fn with_member(m: u32, n: usize) -> u32
    ensures { result ≡ insert m (member_of n) }
{
    m | (1u32 << n.min(16))
}

// The numerals of a text divided by commas, as a set.
fn members_in(text: &[u8]) -> Option<Command>
    ensures { parsed_meant result ≡ halt_after 0 (numerals (pieces text.now)) }
{
    let mut set: u32 = 0;
    for piece in text.split(|byte| *byte == b',') {
        set = with_member(set, read_numeral(piece, 2)?);
    }
    Some(Command::Perform(Step::Halt(set)))
}

fn halt(line: &[u8]) -> Option<Command>
    ensures { parsed_meant result ≡ halt_in (after_key halt_key line.now) }
{
    members_in(line.strip_prefix(b"halt=")?)
}

// What a line asks for, its byte 10 left out; nothing where it is of no form. No two keys but `ack=` and `all=` begin with the same byte. Document 01 asks that
// lines are matched by single bytes into a step, so it is a `match`, of which no two arms read the same.
#[tactic(auto, using(crate::specs::laws::LineLaws::keyed_lines), unfolding(crate::specs::Lines::asking))]
pub fn parse(line: &[u8]) -> Option<Command>
    ensures { parsed_meant result ≡ command_of line.now }
{
    if line.len() < 2 {
        return None;
    }
    match line[0] {
        b'o' => order(line),
        b's' => Some(Command::Perform(Step::Send(read_keyed(line, b"send=", 2)?))),
        b't' => Some(Command::Perform(Step::Take(read_keyed(line, b"take=", 3)?))),
        b'a' => match line[1] {
            b'c' => Some(Command::Perform(Step::Ack(read_keyed(line, b"ack=", 2)?))),
            _ => Some(Command::Perform(Step::All(read_keyed(line, b"all=", 2)?))),
        },
        b'n' => note(line),
        b'h' => halt(line),
        b'b' => Some(Command::Perform(Step::Back(read_keyed(line, b"back=", 2)?))),
        b'l' => Some(Command::List(read_keyed(line, b"list=", 2)?)),
        b'r' => Some(Command::Dispatch(read_keyed(line, b"run=", 4)?)),
        _ => None,
    }
}
