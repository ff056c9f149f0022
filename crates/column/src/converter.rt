// Packets of the old kinds into the new and back, for a line between columns of both. `alone` and `narrowed` are alike in form: the one tests a size, the other a
// number.
ghost use Rattle.std.specs.Prelude.{◌≤◌, ◌≡◌};
ghost use Rattle.column.specs.Refusals.{meant};
ghost use Rattle.column.specs.Packets.{number_size, wide, write_meant};
ghost use Rattle.column.specs.Conversions.{alone_in, narrowed, convert};

use crate::codec::{NARROW, Reading, WIDE, Width, Written, read_in, write_in};
use crate::error::Refusal;
use crate::packet::{Number, Packet, number_of};

// The highest number of two bytes.
const NARROW_HIGHEST: Number = 65535;

// "one packet (any byte after it is 12)", of this width.
#[tactic(auto, using(crate::specs::laws::PacketLaws::read_refused))]
fn alone(s: &[u8], w: Width) -> Result<Packet, Refusal>
    requires { w.count ≤ number_size }
    ensures { meant result ≡ alone_in w s.now }
{
    let Reading { packet, used } = read_in(s, w)?;
    if used != s.len() {
        return Err(Refusal::MalformedPacket);
    }
    Ok(packet)
}

#[tactic(auto, using(crate::specs::laws::ConversionLaws::alone_refused))]
fn narrowed(s: &[u8]) -> Result<Written, Refusal>
    ensures { write_meant result ≡ narrowed (alone_in wide s.now) }
{
    let p = alone(s, WIDE)?;
    if NARROW_HIGHEST < number_of(p) {
        return Err(Refusal::NumberTooHigh);
    }
    Ok(write_in(p, NARROW))
}

// The one packet that these bytes are, of the old kinds in the new and of the new in the old, with its size; or 12, or 18 for a number above 65,535.
pub fn convert(s: &[u8]) -> Result<Written, Refusal>
    ensures { write_meant result ≡ convert s.now }
{
    match alone(s, NARROW) {
        Ok(p) => Ok(write_in(p, WIDE)),
        Err(_) => narrowed(s),
    }
}
