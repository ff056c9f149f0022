// Frames of joined packets.
ghost use Rattle.std.specs.Prelude.{◌≡◌};
ghost use Rattle.firmware.specs.Calls.{answer_of, filled_meant, packet_count, join_call};

use firmware::answer::answer;
use firmware::frames;

// Answers how many packets are joined in the frame, 512 at most; refused with 12.
#[unsafe(no_mangle)]
pub extern "C" fn mudasgup_raw_frame_count(frame: &[u8]) -> usize
    ensures { result ≡ answer_of (packet_count frame.now) }
{
    answer(frames::count(frame))
}

// Joins the packet at the start of the bytes to the frame before a place and answers its size; refused with 12, 11.
#[unsafe(no_mangle)]
pub extern "C" fn mudasgup_raw_frame_join(bytes: &[u8], frame: &mut [u8], at: usize) -> usize
    ensures { filled_meant result frame.new ≡ join_call bytes.now frame.old at }
{
    answer(frames::join(bytes, frame, at))
}
