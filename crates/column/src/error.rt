// By what a call is refused.
ghost use Rattle.std.specs.Prelude.{◌≡◌, ◌++◌, Some, codes, decimal};
ghost use Rattle.column.specs.Refusals.{refusal_number};

use std::error::Error;
use std::fmt;

// Each refusal by its number, which the programs print and C is answered.
#[derive(Clone, Copy, Debug, PartialEq, Eq)]
pub enum Refusal {
    // A table or a request that is not of its form.
    MalformedTable = 1,
    // No columns, or more than sixteen.
    ColumnCount = 2,
    // Parents or a sequence that are none of a tree.
    NoTree = 3,
    // A column that the bank has not; a state or a packet that no bank may have.
    OutOfBank = 4,
    // A column that does not run.
    Halted = 5,
    // A step whose own conditions do not hold; a return of a column that runs.
    NotNow = 6,
    // An order while the root sends or awaits, or owes where senders are watched.
    OrderTooEarly = 7,
    // An order after the highest number.
    LastNumber = 8,
    // A packet beside as many as are held at most.
    NetworkFull = 9,
    // A place where no packet is.
    NoPacket = 10,
    // What does not fit into what is lent.
    NoRoom = 11,
    // Bytes or ends that are no packet's, and a frame with such bytes.
    MalformedPacket = 12,
    // A line of a script that is of no form.
    MalformedLine = 13,
    // A return to a bank that is not at rest.
    NotAtRest = 14,
    // A return of the root.
    RootReturns = 15,
    // A return where no column runs.
    NobodyRuns = 16,
    // A delay or a gap out of its range.
    DelayOrGap = 17,
    // A number that the old kinds of packets do not hold.
    NumberTooHigh = 18,
    // A journal that is not of its form.
    MalformedJournal = 19,
    // A journal that has a line twice.
    RepeatedLine = 20,
    // A journal of what the other did not send.
    UnsentLine = 21,
    // An offset at which a page is not read or not written.
    NoOffset = 22,
    // Losses of too many columns, or where senders are watched.
    NotCountable = 23,
    // A block of another size or layout.
    OtherBlock = 24,
}

impl Refusal {
    // Its number: a cast, since the variants have the numbers of the papers.
    pub fn number(self) -> u8
        ensures { result ≡ refusal_number self }
    {
        self as u8
    }
}

// `refused=` and the number, as the programs print it.
impl fmt::Display for Refusal {
    ghost output = { λ refusal. Some (codes "refused=" ++ decimal (refusal_number refusal)) };

    fn fmt<W: fmt::Write>(&self, f: &mut fmt::Formatter<W>) -> fmt::Result {
        write!(f, "refused={}", self.number())
    }
}

impl Error for Refusal {}
