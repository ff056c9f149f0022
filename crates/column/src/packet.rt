// The packets between columns.
ghost use Rattle.std.specs.Prelude.{◌≡◌};
ghost use Rattle.column.specs.Packets.{is_message, sender, receiver, number_of, doors_of};

// The width of order numbers: the type that holds one, its bytes, and the highest.
pub type Number = u32;

pub const NUMBER_SIZE: usize = 4;

pub const HIGHEST: Number = 4294967295;

// How many numbers there are.
pub const NUMBERS: u64 = HIGHEST as u64 + 1;

// Most packets that are held at once, and most of a frame.
pub const CAPACITY: usize = 512;

#[derive(Clone, Copy, PartialEq, Eq)]
pub enum Packet {
    Message {
        from: u8,
        to: u8,
        number: Number,
        doors: u64,
    },
    Acknowledgement {
        from: u8,
        to: u8,
        number: Number,
    },
}

// Whether it is a message, and no acknowledgement.
pub fn is_message(p: Packet) -> bool
    ensures { result ≡ is_message p }
{
    matches!(p, Packet::Message { .. })
}

// The column that it comes from. This and the next two differ in the field, which no parameter can name.
pub fn sender(p: Packet) -> usize
    ensures { result ≡ sender p }
{
    match p {
        Packet::Message { from, .. } | Packet::Acknowledgement { from, .. } => from as usize,
    }
}

// The column that it is for.
pub fn receiver(p: Packet) -> usize
    ensures { result ≡ receiver p }
{
    match p {
        Packet::Message { to, .. } | Packet::Acknowledgement { to, .. } => to as usize,
    }
}

// The number of its order.
pub fn number_of(p: Packet) -> Number
    ensures { result ≡ number_of p }
{
    match p {
        Packet::Message { number, .. } | Packet::Acknowledgement { number, .. } => number,
    }
}

// The doors of its order; 0 of an acknowledgement, which has none.
pub fn doors_of(p: Packet) -> u64
    ensures { result ≡ doors_of p }
{
    match p {
        Packet::Message { doors, .. } => doors,
        Packet::Acknowledgement { .. } => 0,
    }
}
