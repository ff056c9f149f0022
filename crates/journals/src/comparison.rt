// Two columns' journals compared. The two come apart: each is asked about the other, in either order.
ghost use Rattle.std.specs.Prelude.{◌+◌, ◌≤◌, ◌≡◌, leb, length};
ghost use Rattle.list.specs.Closing.{placed};
ghost use Rattle.journals.specs.Journals.{missing_text, pair_compared, compared, compared_meant};
ghost use Rattle.journals.specs.inner.ReadTexts.{journal_said, both_heard, missing_of};

use crate::index::Index;
use crate::indexed::IndexedJournal;
use crate::journal::ReadJournal;
use crate::lines::{KeyedLine, LINES};
use column::error::Refusal;

// Whether what is missing has room. It is never longer than both texts, so that in as much room nothing is counted.
fn has_room(one: &IndexedJournal, two: &IndexedJournal, room: usize) -> bool
    ensures { result ≡ leb (length (missing_of one.now.journal two.now.journal) + length (missing_of two.now.journal one.now.journal)) room }
{
    if one.journal.text.len() + two.journal.text.len() <= room {
        return true;
    }
    let first = one.missing_length(two);
    if room < first {
        return false;
    }
    let second = two.missing_length(one);
    if room - first < second {
        return false;
    }
    true
}

// 11 is known before the first byte is written.
fn write_missing(
    one: &IndexedJournal,
    two: &IndexedJournal,
    out: &mut [u8],
) -> Result<usize, Refusal>
    ensures { compared_meant result out.new ≡ placed out.old 0 (missing_text (journal_said one.now.journal) (journal_said two.now.journal)) }
{
    if !has_room(one, two, out.len()) {
        return Err(Refusal::NoRoom);
    }
    let end = one.put_missing(two, out, 0);
    Ok(two.put_missing(one, out, end))
}

// Whether everything that one of two got from the other was sent by the other.
fn both_heard(one: &IndexedJournal, two: &IndexedJournal) -> bool
    ensures { result ≡ both_heard (journal_said one.now.journal) (journal_said two.now.journal) }
{
    one.heard(two) && two.heard(one)
}

// Two journals that were read.
fn compare_read(one: ReadJournal, two: ReadJournal, out: &mut [u8]) -> Result<usize, Refusal>
    ensures { compared_meant result out.new ≡ pair_compared (journal_said one.entry) (journal_said two.entry) out.old }
{
    if one.owner == two.owner {
        return Err(Refusal::MalformedJournal);
    }
    let mut index = Index::EMPTY;
    let mut other_index = Index::EMPTY;
    let one = IndexedJournal::new(one, &mut index)?;
    let two = IndexedJournal::new(two, &mut other_index)?;
    if !both_heard(&one, &two) {
        return Err(Refusal::UnsentLine);
    }
    write_missing(&one, &two, out)
}

// The lines of what one of two columns sent to the other and the other never got, from the buffer's start; answers their length.
pub fn compare(one: &[u8], two: &[u8], out: &mut [u8]) -> Result<usize, Refusal>
    ensures { compared_meant result out.new ≡ compared one.now two.now out.old }
{
    let mut lines = [KeyedLine::NONE; LINES];
    let mut other_lines = [KeyedLine::NONE; LINES];
    let one = ReadJournal::read(one, &mut lines)?;
    let two = ReadJournal::read(two, &mut other_lines)?;
    compare_read(one, two, out)
}
