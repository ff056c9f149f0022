// "`back=` with a column is accepted only at rest": its refusals in their order, and what it makes of banks that no script reaches.
use crate::case::Case;
use crate::fine::with_junk;
use crate::five::{TREE_OF_FIVE, five, five_without_root};
use crate::print::ColumnAt;
use crate::state::{
    C0, C1, C2, C3, State, TREE, busy, halted, member, numbered, quiet, resting, root,
};
use bank::bank::Step;
use column::tree::Tree;
use std::io;

// The root and column 2 are halted; column 1 has taken over.
fn taken_over() -> State {
    quiet()
        .with_column(0, halted(root(C1, C2, 0, 0)))
        .with_column(1, root(0, 0, 0, C0 | C2))
}

// A line with some columns after it, and whether what a return has no part in is as it was.
fn line(out: io::Stdout, back: &Case<'_>, columns: &[usize]) -> io::Result<()> {
    print!(out; "{back}")?;
    for i in columns {
        print!(out; "{}", ColumnAt(&back.after, *i))?;
    }
    let words = if back.keeps_from(0) {
        "words kept"
    } else {
        "words lost"
    };
    println!(out; ", {words}")
}

fn returned(out: io::Stdout, name: &str, s: State, j: usize) -> io::Result<()> {
    line(out, &Case::run(name, s, Step::Back(j)), &[0, 1, 2])
}

// The same of a bank of five columns.
fn returned_of_five(out: io::Stdout, name: &str, s: State, j: usize) -> io::Result<()> {
    line(out, &Case::run(name, s, Step::Back(j)), &[0, 1, 2, 3, 4])
}

fn refused_of(out: io::Stdout, name: &str, s: State, j: usize) -> io::Result<()> {
    Case::run(name, s, Step::Back(j)).answer(out)
}

// "order 4, then 6 for a running column, then 15, 14, 16", and 2 and 3 before all of these.
fn refused(out: io::Stdout) -> io::Result<()> {
    let s = resting();
    let seventeen = s.with_tree(Tree {
        columns: 17,
        ..TREE
    });
    let rootless = s.with_tree(Tree { root: 3, ..TREE });
    let fault = s.with_column(2, halted(member(C3, 0, 0, 0)));
    let away = quiet().with_column(0, halted(root(0, 0, 0, 0)));
    let nobody = taken_over().with_column(1, halted(root(0, 0, 0, C0 | C2)));
    refused_of(out, "2, 17 columns", seventeen, 2)?;
    refused_of(out, "3, root 3", rootless, 2)?;
    refused_of(out, "4, not below columns", s, 3)?;
    refused_of(out, "4, the highest number", s, usize::MAX)?;
    refused_of(out, "4 over 6, 3 to be sent to", fault, 1)?;
    refused_of(out, "6 over 14, one that runs", busy(), 1)?;
    refused_of(out, "6 over 15, the root runs", s, 0)?;
    refused_of(out, "15 over 14, the root", away, 0)?;
    refused_of(out, "14, two to be noted", away, 2)?;
    refused_of(out, "14, a packet is under way", s.filled(1), 2)?;
    refused_of(out, "14, 512 packets", s.filled(512), 2)?;
    refused_of(out, "14, somebody sends", busy(), 2)?;
    refused_of(out, "16, nobody runs", nobody, 2)?;
    refused_of(out, "15 over 16, the root", nobody, 0)
}

// What row 4 does not meet at rest: those awaited, a running column noted, two records.
fn accepted(out: io::Stdout) -> io::Result<()> {
    let other = numbered(root(0, C2, 0, C1 | C2), 9);
    let held = halted(root(C1, C1, C1, C0 | C1 | C2));
    let noted = halted(root(0, 0, 0, C1 | C2));
    let states = [
        ("the root runs", resting()),
        ("the root is halted", taken_over()),
        (
            "another record, one awaited, a running one noted",
            resting().with_column(0, other),
        ),
        (
            "halted while it sent, awaited and owed",
            taken_over().with_column(2, held),
        ),
        (
            "noted by a halted column",
            taken_over().with_column(0, noted),
        ),
    ];
    for (name, s) in states {
        returned(out, name, s, 2)?;
    }
    Ok(())
}

// "the record of the lowest running column", whichever the root holds, the column that was halted, and the others.
fn differing(out: io::Stdout) -> io::Result<()> {
    let watching = five().with_tree(Tree {
        watch: true,
        ..TREE_OF_FIVE
    });
    returned_of_five(out, "root 2 runs", five(), 0)?;
    returned_of_five(out, "root 2 runs", five(), 3)?;
    returned_of_five(out, "root 2 runs, senders watched", watching, 3)?;
    returned_of_five(out, "root 2 is halted", five_without_root(), 0)?;
    returned_of_five(out, "root 2 is halted", five_without_root(), 3)
}

// An unused place keeps what it holds.
fn unused(out: io::Stdout) -> io::Result<()> {
    let s = with_junk(resting()).with_count(0);
    line(
        out,
        &Case::run("junk in unused places", s, Step::Back(2)),
        &[3, 15],
    )
}

pub fn cases(out: io::Stdout) -> io::Result<()> {
    refused(out)?;
    accepted(out)?;
    differing(out)?;
    unused(out)
}
