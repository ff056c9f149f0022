// The lines of a column's journal, for the fitter's comparison. There is no heap: a line is written into an array of its own first, so that one that has no room
// leaves the text as it was. A way and a packet come apart, and so do the blocks and the text, as C lends them.
ghost use Rattle.std.specs.Prelude.{◌≡◌};
ghost use Rattle.column.specs.Packets.{number_of};
ghost use Rattle.text.specs.Text.{Puts};
ghost use Rattle.list.specs.Closing.{placed};
ghost use Rattle.journals.specs.Journals.{way_key};
ghost use Rattle.column.specs.Refusals.{meant};
ghost use Rattle.firmware.specs.Calls.{answer_of, filled_meant, list_left, owner_call, sent_call, got_call};
ghost use Rattle.journals.specs.PacketLines.{packet_kind};
ghost use Rattle.firmware.specs.inner.JournalTexts.{kind_of, packet_text, end_of, other_of, way_call};

use crate::block::{column_block, own_in, put_bytes};
use column::codec::read;
use column::error::Refusal;
use column::packet::{Packet, number_of, receiver, sender};
use journals::line::{Kind, Way};
use text::writing::{put_all, put_field, put_next};

// A line of a packet has 21 bytes at most, and an owner's 11.
const LONGEST: usize = 21;

// The kind of a line's packet.
fn kind_of(p: Packet) -> Kind
    ensures { result ≡ packet_kind p }
{
    match p {
        Packet::Message { .. } => Kind::Message,
        Packet::Acknowledgement { .. } => Kind::Acknowledgement,
    }
}

// The end of a packet whose journal has its line.
fn end_of(way: Way, p: Packet) -> usize
    ensures { result ≡ end_of way p }
{
    match way {
        Way::Sent => sender(p),
        Way::Got => receiver(p),
    }
}

// The other end.
#[tactic(auto, using(crate::specs::laws::JournalTextLaws::other_end))]
fn other_of(way: Way, p: Packet) -> usize
    ensures { result ≡ other_of way p }
{
    end_of(way.other(), p)
}

// What a line begins with, as much of it as has room. The keys stand here by their own lengths, so that each is copied without a call.
fn put_key(out: &mut [u8], way: Way) -> usize
    ensures { Puts result out.new out.old 0 (way_key way) }
{
    match way {
        Way::Sent => put_all(out, 0, b"sent="),
        Way::Got => put_all(out, 0, b"got="),
    }
}

// The line of a packet: a key, its kind, the other column and its number, as much of it as has room.
fn put_line(out: &mut [u8], way: Way, p: Packet) -> usize
    ensures { Puts result out.new out.old 0 (packet_text (way_key way) (kind_of p) (other_of way p) (number_of p)) }
{
    let value = put_key(out, way);
    let column = put_next(out, value, true, kind_of(p).number());
    let last = put_next(out, column, false, other_of(way, p) as u64);
    put_field(out, last, b",", u64::from(number_of(p)))
}

// Leaves a text at the start of the buffer and answers its length; refused with 11.
#[tactic(auto, unfolding(list::specs::Closing::placed))]
fn leave_text(text: &[u8], buffer: &mut [u8]) -> Result<usize, Refusal>
    ensures { filled_meant (answer_of (meant result)) buffer.new ≡ list_left (placed buffer.old 0 text.now) }
{
    if buffer.len() < text.len() {
        return Err(Refusal::NoRoom);
    }
    put_bytes(buffer, 0, text);
    Ok(text.len())
}

// Leaves the line of a packet that the column sent or got and answers its length; refused with 24, 12, 4, 11.
#[tactic(auto, using(crate::specs::laws::JournalTextLaws::way_called), unfolding(crate::specs::Calls::line_left))]
fn leave_line(way: Way, column: &[u8], packet: &[u8], text: &mut [u8]) -> Result<usize, Refusal>
    ensures { filled_meant (answer_of (meant result)) text.new ≡ way_call way column.now packet.now text.old }
{
    let own = own_in(column_block(column)?);
    let p = read(packet)?.packet;
    if end_of(way, p) != usize::from(own) {
        return Err(Refusal::OutOfBank);
    }
    let mut line = [0u8; LONGEST];
    let n = put_line(&mut line, way, p);
    leave_text(&line[..n], text)
}

// Leaves the first line of the column's journal and answers its length; refused with 24, 11.
#[tactic(auto, unfolding(crate::specs::Calls::owner_call))]
pub fn owner(column: &[u8], text: &mut [u8]) -> Result<usize, Refusal>
    ensures { filled_meant (answer_of (meant result)) text.new ≡ owner_call column.now text.old }
{
    let own = own_in(column_block(column)?);
    let mut line = [0u8; LONGEST];
    let n = put_field(&mut line, 0, b"column=", u64::from(own));
    leave_text(&line[..n], text)
}

// Leaves the line of a packet that the column sent and answers its length, 21 at most; refused with 24, 12, 4, 11.
pub fn sent(column: &[u8], packet: &[u8], text: &mut [u8]) -> Result<usize, Refusal>
    ensures { filled_meant (answer_of (meant result)) text.new ≡ sent_call column.now packet.now text.old }
{
    leave_line(Way::Sent, column, packet, text)
}

// Leaves the line of a packet that the column got and answers its length, 21 at most; refused with 24, 12, 4, 11.
pub fn got(column: &[u8], packet: &[u8], text: &mut [u8]) -> Result<usize, Refusal>
    ensures { filled_meant (answer_of (meant result)) text.new ≡ got_call column.now packet.now text.old }
{
    leave_line(Way::Got, column, packet, text)
}
