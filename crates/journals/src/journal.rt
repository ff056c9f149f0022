// A journal that was read.
ghost use Rattle.std.specs.Prelude.{◌*◌, ◌≤◌, ◌≡◌, length};
ghost use Rattle.column.specs.Refusals.{meant};
ghost use Rattle.text.specs.Text.{column_key};
ghost use Rattle.text.specs.Pieces.{keyed};
ghost use Rattle.journals.specs.inner.ReadJournals.{owner_named, Holds};

use crate::line::JOURNAL;
use crate::lines::{KeyedLine, read_lines};
use column::error::Refusal;
use text::reading::read_keyed;
use text::search::line_end;

// The lines after the first, as they are and each by its word and its size.
#[derive(Clone, Copy)]
pub struct ReadJournal<'a> {
    pub owner: usize,
    pub text: &'a [u8],
    pub lines: &'a [KeyedLine],
    ghost holds: { Holds owner text.now lines.now },
}

// The owner that the first line names.
#[tactic(auto, unfolding(crate::specs::inner::ReadJournals::owner_named))]
fn owner_of(line: &[u8]) -> Result<usize, Refusal>
    ensures { meant result ≡ owner_named (keyed column_key 2 line.now) }
{
    let owner = read_keyed(line, b"column=", 2).ok_or(Refusal::MalformedJournal)?;
    if 16 <= owner {
        return Err(Refusal::MalformedJournal);
    }
    Ok(owner)
}

impl<'a> ReadJournal<'a> {
    ghost use Rattle.journals.specs.Journals.{journal_of, journal_limit};
    ghost use Rattle.journals.specs.inner.KeyedLines.{shortest_line};
    ghost use Rattle.journals.specs.inner.ReadTexts.{journal_meant};

    // Reads a journal into the room for its lines.
    pub fn read(text: &'a [u8], room: &'a mut [KeyedLine]) -> Result<ReadJournal<'a>, Refusal>
        requires { journal_limit ≤ shortest_line * length room.old }
        ensures { journal_meant result ≡ journal_of text.now }
    {
        if JOURNAL < text.len() {
            return Err(Refusal::MalformedJournal);
        }
        let Some(end) = line_end(text, 0) else {
            return Err(Refusal::MalformedJournal);
        };
        let owner = owner_of(&text[..end])?;
        let rest = text.split_at(end + 1).1;
        let count = read_lines(rest, owner, room)?;
        Ok(ReadJournal {
            owner,
            text: rest,
            lines: &room[..count],
        })
    }
}
