// Two refusals at once: "steps in the order 4, 5, 6, 7, 8, 10, 9", and the tree's 2 and 3 before all of these.
use crate::case::{Case, strip};
use crate::state::{C1, C2, C3, State, TREE, busy, halted, member, numbered, quiet, root};
use bank::bank::Step;
use column::packet::HIGHEST;
use column::state::Column;
use column::tree::{ASCENDING, Tree};
use std::io;

// A busy bank whose tree has another count or root, and these three parents first.
fn with_parents(columns: usize, root: usize, parents: [u8; 3]) -> State {
    let [first, second, third] = parents;
    busy().with_tree(Tree {
        columns,
        root,
        up: [first, second, third, 0, 0, 0, 0, 0, 0, 0, 0, 0, 0, 0, 0, 0],
        ..TREE
    })
}

// A busy bank whose tree of three columns has a sequence that begins with these.
fn sequenced(columns: [u8; 3]) -> State {
    let [one, two, three] = columns;
    let mut first = ASCENDING;
    first[0] = one;
    first[1] = two;
    first[2] = three;
    busy().with_tree(Tree { first, ..TREE })
}

// Row 4 meets the state of column 1.
fn with_fault(s: State) -> State {
    let c = s.bank.columns[1];
    let noted = c.noted | C3;
    s.with_column(1, Column { noted, ..c })
}

fn two(out: io::Stdout) -> io::Result<()> {
    let send = Step::Send(0);
    let none = with_parents(0, 0, [0, 0, 1]);
    let over_three = with_parents(17, 17, [0, 0, 1]);
    let s = with_parents(17, 0, [0, 0, 1]);
    let full = s.filled(512);
    let faulty = "2 over 4, 17 columns and 3 in noted";
    Case::run("2, no columns", none, send).answer(out)?;
    Case::run("2 over 3, 17 columns and root 17", over_three, send).answer(out)?;
    Case::run("2 over 4, 17 columns", s, Step::Send(99)).answer(out)?;
    Case::run(faulty, with_fault(s), send).answer(out)?;
    Case::run("2 over 5, 17 columns and halted", s, Step::Send(2)).answer(out)?;
    Case::run("2 over 7, 17 columns and a busy root", s, Step::Order(9)).answer(out)?;
    Case::run("2 over 9, 17 columns and 512 packets", full, send).answer(out)?;
    Case::run("2 over 10, 17 columns", s, Step::Take(600)).answer(out)
}

fn three(out: io::Stdout) -> io::Result<()> {
    let send = Step::Send(0);
    let root_three = with_parents(3, 3, [0, 0, 1]);
    let not_its_own = with_parents(3, 0, [1, 0, 1]);
    let missing = with_parents(3, 0, [0, 2, 1]);
    Case::run("3, root 3", root_three, Step::Order(9)).answer(out)?;
    Case::run("3, root not its own parent", not_its_own, send).answer(out)?;
    Case::run("3, a climb that misses the root", missing, send).answer(out)?;
    three_over_others(out, with_parents(3, 0, [0, 7, 1]))
}

fn three_over_others(out: io::Stdout, s: State) -> io::Result<()> {
    let send = Step::Send(0);
    let full = s.filled(512);
    let faulty = "3 over 4, parent 7 and 3 in noted";
    Case::run("3 over 4, parent 7", s, Step::Send(99)).answer(out)?;
    Case::run(faulty, with_fault(s), send).answer(out)?;
    Case::run("3 over 5, parent 7 and halted", s, Step::Send(2)).answer(out)?;
    Case::run("3 over 7, parent 7 and a busy root", s, Step::Order(9)).answer(out)?;
    Case::run("3 over 9, parent 7 and 512 packets", full, send).answer(out)?;
    Case::run("3 over 10, parent 7", s, Step::Take(600)).answer(out)
}

// "A list that misses, repeats or exceeds a column is refused with 3."
fn sequences(out: io::Stdout) -> io::Result<()> {
    let twice = sequenced([2, 0, 2]);
    let exceeding = sequenced([2, 0, 3]);
    let over_four = sequenced([0, 0, 1]);
    let name = "3 over 4, a column listed twice";
    Case::run("3, a column listed twice", twice, Step::Send(0)).answer(out)?;
    Case::run("3, column 3 listed", exceeding, Step::Ack(1)).answer(out)?;
    Case::run(name, over_four, Step::Send(99)).answer(out)
}

// The other refusal alone, and then with a fault elsewhere.
fn four_over(out: io::Stdout, other: &str, s: State, step: Step) -> io::Result<()> {
    Case::run(other, s, step).answer(out)?;
    print!(out; "4 over ")?;
    Case::run(other, with_fault(s), step).answer(out)
}

fn four(out: io::Stdout) -> io::Result<()> {
    let stopped = busy().with_column(2, halted(member(C1, 0, 0, 0)));
    let idle = busy().with_column(0, root(0, 0, 0, 0));
    let last = busy().with_column(0, numbered(root(0, 0, 0, 0), HIGHEST));
    let full = busy().filled(512);
    let many = busy().filled(513);
    let halted_and_none = "4 over 5, halted and a column not below columns";
    let itself_and_none = "4 over 6, itself and not below columns";
    four_over(out, "5, halted", stopped, Step::Send(2))?;
    four_over(out, "6, nothing to send", idle, Step::Send(0))?;
    four_over(out, "7, a busy root", busy(), Step::Order(9))?;
    four_over(out, "8, the root at 4294967295", last, Step::Order(9))?;
    four_over(out, "9, 512 packets", full, Step::Send(0))?;
    four_over(out, "10, no such place", busy(), Step::Take(600))?;
    Case::run(halted_and_none, busy(), Step::Note(2, 3)).answer(out)?;
    Case::run(itself_and_none, busy(), Step::Note(9, 9)).answer(out)?;
    Case::run("4 over 9, 513 packets", many, Step::Send(0)).answer(out)?;
    Case::run("4 over 10, 513 packets", many, Step::Take(600)).answer(out)
}

fn five(out: io::Stdout) -> io::Result<()> {
    let s = busy().with_column(2, halted(member(0, 0, 0, 0)));
    let steps = [
        ("5 over 6, halted and nothing to send", Step::Send(2)),
        ("5 over 6, halted and nobody owed", Step::Ack(2)),
        ("5 over 6, halted and the root not noted", Step::All(2)),
        ("5 over 6, halted and the other runs", Step::Note(2, 1)),
        ("5 over 6, halted and itself", Step::Note(2, 2)),
        ("5, halted before", strip(C2)),
    ];
    for (name, step) in steps {
        Case::run(name, s, step).answer(out)?;
    }
    five_of_a_root(out)?;
    five_over_nine(out)
}

fn five_of_a_root(out: io::Stdout) -> io::Result<()> {
    let roots = [
        ("5 over 7, a halted root that sends", root(C1, 0, 0, 0)),
        ("5 over 7, a halted root that awaits", root(0, C1, 0, 0)),
        (
            "5 over 8, a halted root at 4294967295",
            numbered(root(0, 0, 0, 0), HIGHEST),
        ),
    ];
    for (name, c) in roots {
        let s = quiet().with_column(0, halted(c));
        Case::run(name, s, Step::Order(9)).answer(out)?;
    }
    Ok(())
}

fn five_over_nine(out: io::Stdout) -> io::Result<()> {
    let stopped = halted(root(C1, 0, C1, 0));
    let full = busy().with_column(2, stopped).filled(512);
    for step in [Step::Send(2), Step::Ack(2)] {
        Case::run("5 over 9, halted and 512 packets", full, step).answer(out)?;
    }
    Ok(())
}

pub fn cases(out: io::Stdout) -> io::Result<()> {
    two(out)?;
    three(out)?;
    sequences(out)?;
    four(out)?;
    five(out)
}
