// "Only 5 and 7 can be written, at a halted column too; a write alters nothing but bytes 5 and 6", and what is refused of it: "22 for an offset above
// 7 or a write elsewhere, after 4".
use crate::case::Case;
use crate::five::{C5, TREE_OF_FIVE, five};
use crate::state::{State, busy, member};
use bank::bank::Step;
use column::page::{CLEAR_OFFSET, MASK_OFFSET};
use column::tree::Tree;
use std::io;

// A byte taken for 5 where an offset's higher bytes are passed over, and one taken for 7.
const MASK_PAST_A_BYTE: usize = 256 + MASK_OFFSET;

const CLEAR_PAST_A_BYTE: usize = 256 + CLEAR_OFFSET;

const MASK_PAST_FOUR_BYTES: usize = 4294967296 + MASK_OFFSET;

// Of each column some of the bits that are pending, and others, are cleared.
fn accepted(out: io::Stdout) -> io::Result<()> {
    let writes = [
        ("it runs", 1, MASK_OFFSET, 255u8),
        ("it runs", 4, CLEAR_OFFSET, 255),
        ("the root", 2, MASK_OFFSET, 0),
        ("the root", 2, CLEAR_OFFSET, 5),
        ("it is halted", 0, MASK_OFFSET, 128),
        ("it is halted", 3, CLEAR_OFFSET, 18),
    ];
    for (name, i, offset, value) in writes {
        Case::run(name, five(), Step::Write(i, offset, value)).effect(out, i)?;
    }
    let write = Step::Write(1, MASK_OFFSET, 6);
    Case::run("512 packets", busy().filled(512), write).answer(out)
}

fn elsewhere(out: io::Stdout) -> io::Result<()> {
    let offsets = [
        6,
        8,
        MASK_PAST_A_BYTE,
        CLEAR_PAST_A_BYTE,
        MASK_PAST_FOUR_BYTES,
        usize::MAX,
    ];
    for offset in offsets {
        Case::run("22, elsewhere", five(), Step::Write(1, offset, 255)).answer(out)?;
    }
    let write = Step::Write(0, 6, 255);
    Case::run("22, halted and elsewhere", five(), write).answer(out)
}

fn of_tree(columns: usize, root: usize) -> State {
    five().with_tree(Tree {
        columns,
        root,
        ..TREE_OF_FIVE
    })
}

// "after 4", and 2 and 3 before it.
fn of_no_bank(out: io::Stdout) -> io::Result<()> {
    let fault = five().with_column(4, member(0, 0, 0, C5));
    let many = five().with_count(513);
    let write = Step::Write(1, 6, 1);
    let of_five = Step::Write(5, 6, 1);
    let mask = Step::Write(1, MASK_OFFSET, 1);
    Case::run("2 over 22, 17 columns", of_tree(17, 2), write).answer(out)?;
    Case::run("3 over 22, root 5", of_tree(5, 5), write).answer(out)?;
    Case::run("4 over 22, 5 in noted", fault, write).answer(out)?;
    Case::run("4 over 22, not below columns", five(), of_five).answer(out)?;
    Case::run("4, 513 packets", many, mask).answer(out)
}

pub fn cases(out: io::Stdout) -> io::Result<()> {
    accepted(out)?;
    elsewhere(out)?;
    of_no_bank(out)
}
