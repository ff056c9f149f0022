// Two journals that repeat no line, each with its index, side by side. A way and a word come apart: a word has its own way, and is asked about either.
ghost use Rattle.std.specs.Prelude.{length};
ghost use Rattle.journals.specs.inner.KeyedLines.{keys_in, heard_keys, missed_length};
ghost use Rattle.journals.specs.inner.Chains.{Indexed};

use crate::index::Index;
use crate::journal::ReadJournal;
use crate::line::Way;
use crate::word::{about, turn};
use column::error::Refusal;
use text::writing::put_all;

// A journal that repeats no line, with the index of its lines.
#[derive(Clone, Copy)]
pub struct IndexedJournal<'a> {
    pub journal: ReadJournal<'a>,
    pub index: &'a Index,
    ghost chained: { Indexed (keys_in journal.lines.now) (length journal.lines.now) index.now },
}

impl<'a> IndexedJournal<'a> {
    ghost use Rattle.std.specs.Prelude.{◌+◌, ◌≤◌, ◌≡◌};
    ghost use Rattle.text.specs.Text.{Writes};
    ghost use Rattle.journals.specs.inner.Chains.{among};
    ghost use Rattle.journals.specs.inner.LineWords.{unmatched_key};
    ghost use Rattle.journals.specs.inner.ReadTexts.{IsIndexed, missing_of};

    // Indexes a journal; refused with 20, if it has a line twice.
    pub fn new(
        journal: ReadJournal<'a>,
        index: &'a mut Index,
    ) -> Result<IndexedJournal<'a>, Refusal>
        requires { Indexed (keys_in journal.lines.now) 0 index.old }
        ensures { IsIndexed result journal.entry }
    {
        if !index.chain(journal.lines) {
            return Err(Refusal::RepeatedLine);
        }
        Ok(IndexedJournal { journal, index })
    }

    // Whether it has a word.
    fn has(&self, key: u64) -> bool
        ensures { result ≡ among (keys_in self.now.journal.lines.now) (length self.now.journal.lines.now) key }
    {
        let lines = self.journal.lines;
        self.index.has(lines, lines.len(), key)
    }

    // Whether a word is a line of its owner, of this way and about the other, and the other has no line of the other way for it.
    fn unmatched(&self, other: &IndexedJournal, way: Way, key: u64) -> bool
        ensures { result ≡ unmatched_key way self.now.journal.owner other.now.journal.owner (keys_in other.now.journal.lines.now) key }
    {
        about(other.journal.owner, way, key)
            && !other.has(turn(way.other(), self.journal.owner, key))
    }

    // Whether everything that its owner got from the other was sent by the other.
    pub fn heard(&self, other: &IndexedJournal) -> bool
        ensures { result ≡ heard_keys self.now.journal.owner other.now.journal.owner (keys_in other.now.journal.lines.now) self.now.journal.lines.now }
    {
        self.journal
            .lines
            .iter()
            .all(|line| !self.unmatched(other, Way::Got, line.key))
    }

    // How many bytes the lines take that its owner sent to the other and the other never got.
    pub fn missing_length(&self, other: &IndexedJournal) -> usize
        ensures { result ≡ missed_length self.now.journal.owner other.now.journal.owner (keys_in other.now.journal.lines.now) self.now.journal.lines.now }
    {
        self.journal
            .lines
            .iter()
            .filter(|line| self.unmatched(other, Way::Sent, line.key))
            .map(|line| line.size as usize)
            .sum()
    }

    // Those lines as they are, written from a place on; answers the place after them.
    pub fn put_missing(&self, other: &IndexedJournal, out: &mut [u8], start: usize) -> usize
        requires { start + length (missing_of self.now.journal other.now.journal) ≤ length out.old }
        ensures { Writes result out.new out.old start (missing_of self.now.journal other.now.journal) }
    {
        let mut rest = self.journal.text;
        let mut end = start;
        for line in self.journal.lines {
            let (bytes, more) = rest.split_at(line.size as usize);
            if self.unmatched(other, Way::Sent, line.key) {
                end = put_all(out, end, bytes);
            }
            rest = more;
        }
        end
    }
}
