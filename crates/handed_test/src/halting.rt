// "packets to it vanish, packets from it remain", and of several "all of them halt in the same step": which ones, in which order, and the words behind them.
use crate::case::{Case, strip};
use crate::print::{ColumnAt, PacketAt};
use crate::state::{C0, C1, C2, C3, State, acknowledgement, member, message, quiet, root};
use bank::bank::Step;
use std::io;

// All three run; six packets, told apart by their numbers, and words that mean nothing behind them.
fn six_packets() -> State {
    quiet()
        .filled(6)
        .with_column(0, root(C1, C2, C1, 0))
        .with_column(1, member(C2, C0, C0, C2))
        .with_column(2, member(0, C1, C1, C0))
        .with_words(0, message(0, 1, 10), 100)
        .with_words(1, acknowledgement(1, 0, 11), 0)
        .with_words(2, message(2, 1, 12), 102)
        .with_words(3, message(1, 2, 13), 103)
        .with_words(4, acknowledgement(0, 1, 14), 0)
        .with_words(5, acknowledgement(2, 0, 15), 0)
}

fn halting(out: io::Stdout, set: u16) -> io::Result<()> {
    let halt = Case::run("six packets", six_packets(), strip(set));
    print!(out; "{halt}, count {}", halt.after.bank.count)?;
    for i in 0..3 {
        print!(out; "{}", ColumnAt(&halt.after, i))?;
    }
    for place in 0..6 {
        print!(out; "{}", PacketAt(&halt.after, place))?;
    }
    let rest = if halt.keeps_from(6) {
        "rest kept"
    } else {
        "rest lost"
    };
    println!(out; ", {rest}")
}

// "If any is 4 or 5, none halts." Column 2 is halted, and there is no column 3.
fn refused(out: io::Stdout) -> io::Result<()> {
    let sets = [
        ("5, the second halted before", strip(C1 | C2)),
        ("5, all of them and one halted before", strip(C0 | C1 | C2)),
        ("4, the second not below columns", strip(C1 | C3)),
        (
            "4 over 5, one halted before and one not below columns",
            strip(C2 | C3),
        ),
        ("4, member 16", Step::Halt(65536 + 2)),
        ("4, member 31", Step::Halt(2147483648)),
    ];
    for (name, halt) in sets {
        Case::run(name, quiet().filled(6), halt).answer(out)?;
    }
    Ok(())
}

fn in_a_full_network(out: io::Stdout) -> io::Result<()> {
    let full = quiet().filled(512);
    let one = full.with_words(511, message(0, 1, 10), 100);
    let less = one.with_count(511);
    let all_but = "512 packets, all but the last to it";
    let of_two = strip(C0 | C1);
    Case::run("512 packets, all to it", full, strip(C0)).effect_at(out, 0, 511)?;
    Case::run("512 packets, all to one of them", full, of_two).effect_at(out, 1, 511)?;
    Case::run(all_but, one, strip(C0)).effect_at(out, 0, 511)?;
    Case::run("512 packets, all to them", one, of_two).effect_at(out, 1, 511)?;
    Case::run("511 packets, all to it", less, strip(C0)).effect_at(out, 0, 511)
}

pub fn cases(out: io::Stdout) -> io::Result<()> {
    for set in [C0, C1, C2, C0 | C1, C1 | C2, C0 | C1 | C2] {
        halting(out, set)?;
    }
    Case::run("nobody", six_packets(), strip(0)).answer(out)?;
    refused(out)?;
    Case::run("no packets", quiet().filled(0), strip(C0)).effect_at(out, 0, 0)?;
    in_a_full_network(out)
}
