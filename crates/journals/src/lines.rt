// The lines of a journal, read one after the other.
ghost use Rattle.std.specs.Prelude.{◌*◌, ◌≤◌, ◌≡◌, length};
ghost use Rattle.text.specs.Pieces.{cut};
ghost use Rattle.column.specs.Refusals.{meant};
ghost use Rattle.journals.specs.Journals.{entries_in, journal_limit};
ghost use Rattle.journals.specs.inner.KeyedLines.{shortest_line, first_cut, keyed_in, lines_meant, count_of};

use crate::line::{JOURNAL, read_line};
use crate::word::key_of;
use column::error::Refusal;
use text::search::line_end;

// The bytes of the shortest line, `got=1,0,0`, with its byte 10.
const SHORTEST: usize = 10;

// As many lines as a journal can have.
pub const LINES: usize = JOURNAL / SHORTEST + 1;

// A line by its word, and how many bytes it has with its byte 10.
#[derive(Clone, Copy)]
pub struct KeyedLine {
    pub key: u64,
    pub size: u16,
}

impl KeyedLine {
    pub const NONE: KeyedLine = KeyedLine { key: 0, size: 0 };
}

// The first line of a text.
#[tactic(auto, using(crate::specs::laws::KeyedLineLaws::first_unended, crate::specs::laws::KeyedLineLaws::first_ended), unfolding(crate::specs::inner::KeyedLines::first_of))]
fn first_line(text: &[u8], owner: usize) -> Result<KeyedLine, Refusal>
    requires { length text.now ≤ journal_limit }
    ensures { meant result ≡ first_cut owner (cut text.now) }
{
    let Some(end) = line_end(text, 0) else {
        return Err(Refusal::MalformedJournal);
    };
    let line = read_line(&text[..end], owner)?;
    Ok(KeyedLine {
        key: key_of(line),
        size: (end + 1) as u16,
    })
}

// All lines of a text; answers how many.
pub fn read_lines(text: &[u8], owner: usize, lines: &mut [KeyedLine]) -> Result<usize, Refusal>
    requires { (length text.now ≤ journal_limit) × (length text.now ≤ shortest_line * length lines.old) }
    ensures all_lines { lines_meant result lines.new ≡ keyed_in (entries_in (length text.now) owner text.now) }
    ensures result_in_bounds { (count_of result ≤ length lines.new) × (shortest_line * count_of result ≤ length text.now) }
{
    let mut rest = text;
    let mut count: usize = 0;
    // It is the rest of the text that falls: a line says where the next one begins.
    while !rest.is_empty() {
        let line = first_line(rest, owner)?;
        lines[count] = line;
        count += 1;
        rest = rest.split_at(line.size as usize).1;
    }
    Ok(count)
}
