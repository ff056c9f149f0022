// Laps of reading a frame of 512 messages.
use column::codec::MESSAGE_SIZE;
use column::frame::read_frame;
use column::packet::{CAPACITY, doors_of};
use laps_timing::fold;

const FRAME_SIZE: usize = CAPACITY * MESSAGE_SIZE;

// Order 16,909,060 from column 0 to column 1.
const MESSAGE: [u8; MESSAGE_SIZE] = [3, 0, 1, 1, 2, 3, 4, 1, 2, 3, 4, 5, 6, 7, 8];

// The place in a message of the first byte of its doors.
const DOORS: usize = 7;

// In each lap the doors of another message are the lap's.
pub fn run(laps: u64) -> u64 {
    let mut bytes = [0u8; FRAME_SIZE];
    for (i, byte) in bytes.iter_mut().enumerate() {
        *byte = MESSAGE[i % MESSAGE_SIZE];
    }
    let mut sum: u64 = 0;
    for lap in 0..laps {
        let place = lap as usize % CAPACITY;
        bytes[place * MESSAGE_SIZE + DOORS] = (lap % 256) as u8;
        let (count, doors) = match read_frame(&bytes) {
            Ok(frame) => (frame.count as u64, doors_of(frame.packets[place])),
            Err(refusal) => (refusal.number() as u64, 0),
        };
        sum = fold(fold(sum, count), doors);
    }
    sum
}
