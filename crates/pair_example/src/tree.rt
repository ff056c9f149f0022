// A tree of five columns and what the core answers of it, beside the sentences of document 01.
use crate::print::Set;
use column::error::Refusal;
use column::topology::{children, subtree, subtrees};
use column::tree::{ASCENDING, Tree};
use std::{fmt, io};

// Column 2 is the root. Its children are 0 and 3; 1 is the child of 0, and 4 that of 1.
const TREE: Tree = Tree {
    columns: 5,
    root: 2,
    up: [2, 0, 2, 2, 1, 0, 0, 0, 0, 0, 0, 0, 0, 0, 0, 0],
    first: ASCENDING,
    watch: false,
};

// What the core answers with a set.
#[derive(Drop)]
struct Members(Result<u16, Refusal>);

impl fmt::Display for Members {
    fn fmt<W: fmt::Write>(&self, f: &mut fmt::Formatter<W>) -> fmt::Result {
        match self.0 {
            Ok(set) => write!(f, "={}", Set(set)),
            Err(refusal) => write!(f, " {refusal}"),
        }
    }
}

fn show_column(out: io::Stdout, c: usize) -> io::Result<()> {
    let t = TREE;
    print!(out; "column={c}")?;
    if c < t.columns {
        print!(out; " up={}", t.up[c])?;
    }
    let below = children(t, c);
    print!(out; " children{}", Members(below))?;
    if let Ok(set) = below {
        print!(out; " subtrees{}", Members(subtrees(t, set)))?;
    }
    println!(out; " subtree{}", Members(subtree(t, c)))
}

fn show_set(out: io::Stdout, set: u16) -> io::Result<()> {
    let below = Members(subtrees(TREE, set));
    println!(out; "set={} subtrees{below}", Set(set))
}

// The tree has no column 5: alone and in a set it is refused with 4.
pub fn show(out: io::Stdout) -> io::Result<()> {
    println!(out; "columns={}", TREE.columns)?;
    println!(out; "root={}", TREE.root)?;
    println!(out; "The subtree of a column is the column with the subtrees of its children:")?;
    for c in 0..6 {
        show_column(out, c)?;
    }
    println!(out; "The subtrees of a list are its first member's with those of the rest:")?;
    show_set(out, 1 << 1 | 1 << 3)?;
    show_set(out, 1 << 1 | 1 << 5)
}
