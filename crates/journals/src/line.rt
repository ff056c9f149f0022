// A line of a journal. Its kind and its way have the numbers of the papers. The text of a line and the column whose journal it is of come apart: the one is a part of
// the other's journal.
ghost use Rattle.std.specs.Prelude.{◌≡◌};
ghost use Rattle.text.specs.Text.{read, numeral};
ghost use Rattle.text.specs.Pieces.{pieces};
ghost use Rattle.column.specs.Refusals.{meant};
ghost use Rattle.journals.specs.Journals.{line_judged, line_pieces, line_of, kind_of_number};

use column::error::Refusal;
use column::packet::HIGHEST;
use text::reading::read_numeral;
use text::search::next_place;

// The bytes that a journal has at most.
pub const JOURNAL: usize = 32768;

const HIGHEST_NUMBER: usize = HIGHEST as usize;

// Whether the owner of the journal sent the packet of a line or got it.
#[derive(Clone, Copy, Debug, PartialEq, Eq)]
pub enum Way {
    Sent = 0,
    Got = 1,
}

impl Way {
    ghost use Rattle.journals.specs.inner.LineWords.{other_way};

    // The way at the other end.
    pub fn other(self) -> Way
        ensures { result ≡ other_way self }
    {
        match self {
            Way::Sent => Way::Got,
            Way::Got => Way::Sent,
        }
    }
}

// The kind of a line's packet, by its number in the line.
#[derive(Clone, Copy, Debug, PartialEq, Eq)]
pub enum Kind {
    Message = 1,
    Acknowledgement = 2,
}

impl Kind {
    ghost use Rattle.journals.specs.Journals.{kind_number};

    // Its number in a line.
    pub fn number(self) -> u64
        ensures { result ≡ kind_number self }
    {
        self as u64
    }
}

// The kind of a number in a line; 19 of any other.
impl TryFrom<usize> for Kind {
    type Error = Refusal;

    ghost try_from_gives = { λ number r. meant r ≡ kind_of_number number };

    fn try_from(number: usize) -> Result<Kind, Refusal> {
        match number {
            1 => Ok(Kind::Message),
            2 => Ok(Kind::Acknowledgement),
            _ => Err(Refusal::MalformedJournal),
        }
    }
}

#[derive(Clone, Copy, Debug, PartialEq, Eq)]
pub struct Line {
    pub way: Way,
    pub kind: Kind,
    pub other: u8,
    pub number: u32,
}

// The line of three numbers, the first of which is that of a kind, as `line_judged` has it.
#[tactic(auto, unfolding(crate::specs::Journals::line_judged))]
fn judged(way: Way, kind: usize, other: usize, number: usize, owner: usize) -> Result<Line, Refusal>
    ensures { meant result ≡ line_judged owner way (read kind) (read other) (read number) }
{
    let kind = Kind::try_from(kind)?;
    if 16 <= other || other == owner || HIGHEST_NUMBER < number {
        return Err(Refusal::MalformedJournal);
    }
    Ok(Line {
        way,
        kind,
        other: other as u8,
        number: number as u32,
    })
}

// The line of three texts.
#[tactic(auto, unfolding(crate::specs::Journals::line_judged))]
fn numerals(
    way: Way,
    kind: &[u8],
    other: &[u8],
    number: &[u8],
    owner: usize,
) -> Result<Line, Refusal>
    ensures { meant result ≡ line_judged owner way (numeral 1 kind.now) (numeral 2 other.now) (numeral 10 number.now) }
{
    let kind = read_numeral(kind, 1).ok_or(Refusal::MalformedJournal)?;
    let other = read_numeral(other, 2).ok_or(Refusal::MalformedJournal)?;
    let number = read_numeral(number, 10).ok_or(Refusal::MalformedJournal)?;
    judged(way, kind, other, number, owner)
}

// A third comma is no digit, so that what follows the second is read only where there is no other.
#[tactic(auto, using(crate::specs::laws::FieldLaws::fields_one, crate::specs::laws::FieldLaws::fields_two, crate::specs::laws::FieldLaws::fields_three))]
fn fields(way: Way, text: &[u8], owner: usize) -> Result<Line, Refusal>
    ensures { meant result ≡ line_pieces owner way (pieces text.now) }
{
    let Some(one) = next_place(text, 0, b',') else {
        return Err(Refusal::MalformedJournal);
    };
    let Some(two) = next_place(text, one + 1, b',') else {
        return Err(Refusal::MalformedJournal);
    };
    numerals(
        way,
        &text[..one],
        &text[one + 1..two],
        &text[two + 1..],
        owner,
    )
}

// The line that a text without its byte 10 is, in the journal of an owner.
pub fn read_line(line: &[u8], owner: usize) -> Result<Line, Refusal>
    ensures { meant result ≡ line_of owner line.now }
{
    if let Some(rest) = line.strip_prefix(b"sent=") {
        return fields(Way::Sent, rest, owner);
    }
    if let Some(rest) = line.strip_prefix(b"got=") {
        return fields(Way::Got, rest, owner);
    }
    Err(Refusal::MalformedJournal)
}
