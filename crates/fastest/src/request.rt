// What is asked of a fastest tree.
// What is asked for: a tree of so many columns, for a line of this delay and this gap.
#[derive(Clone, Copy, Debug, PartialEq, Eq)]
pub struct Request {
    pub columns: usize,
    pub delay: usize,
    pub gap: usize,
}
