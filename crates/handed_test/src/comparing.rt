// That `unchanged` says what it should: the comparison sees a difference in each part alone, the last places too.
use crate::state::{State, TREE, quiet};
use bank::bank::NO_COLUMN;
use column::state::Column;
use column::tree::Tree;
use std::io;

fn compared(out: io::Stdout, part: &str, s: State) -> io::Result<()> {
    let answer = if s == quiet() { "same" } else { "different" };
    println!(out; "{part}: {answer}")
}

fn field(out: io::Stdout, part: &str, c: Column) -> io::Result<()> {
    print!(out; "column 15, ")?;
    compared(out, part, quiet().with_column(15, c))
}

fn fields(out: io::Stdout) -> io::Result<()> {
    let c = NO_COLUMN;
    field(out, "no field", c)?;
    field(out, "running", Column { running: true, ..c })?;
    field(out, "number", Column { number: 1, ..c })?;
    field(out, "doors", Column { doors: 1, ..c })?;
    field(out, "send", Column { send: 1, ..c })?;
    field(out, "awaited", Column { awaited: 1, ..c })?;
    field(out, "owed", Column { owed: 1, ..c })?;
    field(out, "noted", Column { noted: 1, ..c })?;
    field(out, "whole", Column { whole: true, ..c })?;
    field(out, "sender", Column { sender: 1, ..c })?;
    field(out, "mask", Column { mask: 1, ..c })?;
    field(out, "pending", Column { pending: 1, ..c })
}

fn tree(out: io::Stdout, part: &str, t: Tree) -> io::Result<()> {
    compared(out, part, quiet().with_tree(t))
}

fn trees(out: io::Stdout) -> io::Result<()> {
    let t = TREE;
    let mut up = t.up;
    let mut first = t.first;
    up[15] = 1;
    first[15] = 1;
    tree(out, "columns", Tree { columns: 4, ..t })?;
    tree(out, "root", Tree { root: 1, ..t })?;
    tree(out, "the last parent", Tree { up, ..t })?;
    tree(out, "the last place of the sequence", Tree { first, ..t })?;
    tree(out, "watch", Tree { watch: true, ..t })
}

pub fn cases(out: io::Stdout) -> io::Result<()> {
    fields(out)?;
    trees(out)?;
    compared(out, "count", quiet().with_count(1))?;
    compared(out, "the first head", quiet().with_words(0, 1, 0))?;
    compared(out, "the first doors", quiet().with_words(0, 0, 1))?;
    compared(out, "the last head", quiet().with_words(511, 1, 0))?;
    compared(out, "the last doors", quiet().with_words(511, 0, 1))
}
