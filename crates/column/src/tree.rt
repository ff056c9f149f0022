// The tree of a bank. It has no heap: each array has a place for sixteen columns, and `columns` says how many count.

// The sequence of a tree that names none.
pub const ASCENDING: [u8; 16] = [0, 1, 2, 3, 4, 5, 6, 7, 8, 9, 10, 11, 12, 13, 14, 15];

#[derive(Clone, Copy, PartialEq, Eq)]
pub struct Tree {
    pub columns: usize,
    pub root: usize,
    pub up: [u8; 16],
    // The owner's sequence, in which send serves: every column exactly once.
    pub first: [u8; 16],
    // Whether a column watches the one that sent its record, and not the root.
    pub watch: bool,
}
