// Frames of joined packets. A frame is lent whole beside the place where it ends, as the header lends it.
ghost use Rattle.std.specs.Prelude.{◌≡◌, take};
ghost use Rattle.column.specs.Refusals.{meant};
ghost use Rattle.firmware.specs.Calls.{answer_of, filled_meant, packet_count, join_call};

use crate::block::put_bytes;
use column::codec::read;
use column::error::Refusal;
use column::packet::CAPACITY;

// Answers how many packets are joined in the frame, 512 at most; refused with 12. None of them is kept.
pub fn count(frame: &[u8]) -> Result<usize, Refusal>
    ensures { meant result ≡ packet_count frame.now }
{
    // How many bytes a packet takes is not known before it is read, so that no iterator goes over them.
    let mut rest = frame;
    let mut count = 0;
    while !rest.is_empty() {
        if count == CAPACITY {
            return Err(Refusal::MalformedPacket);
        }
        rest = &rest[read(rest)?.used..];
        count += 1;
    }
    Ok(count)
}

// How many packets are joined in the bytes before a place, in all of them where the place is beyond; or 12.
fn count_before(s: &[u8], at: usize) -> Result<usize, Refusal>
    ensures { meant result ≡ packet_count (take at s.now) }
{
    count(&s[..at.min(s.len())])
}

// Joins the packet at the start of the bytes to the frame before a place and answers its size; refused with 12, 11.
#[tactic(auto, unfolding(crate::specs::Calls::joined_at))]
pub fn join(bytes: &[u8], frame: &mut [u8], at: usize) -> Result<usize, Refusal>
    ensures { filled_meant (answer_of (meant result)) frame.new ≡ join_call bytes.now frame.old at }
{
    let used = read(bytes)?.used;
    let count = count_before(frame, at)?;
    if frame.len() < at || frame.len() - at < used {
        return Err(Refusal::NoRoom);
    }
    if CAPACITY <= count {
        return Err(Refusal::NoRoom);
    }
    put_bytes(frame, at, &bytes[..used]);
    Ok(used)
}
