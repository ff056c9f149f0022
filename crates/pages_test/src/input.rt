// Standard input: the count of columns, the root, 1 where columns watch who sent their record, and sixteen parents, a byte each; then the
// commands. What is missing at its end is 0.
use crate::command::{COMMAND_SIZE, Command, Station};
use bank::bank::{Bank, Network, fresh};
use column::tree::{ASCENDING, Tree};
use std::array::from_fn;
use std::io;
use streams::read_full;

const LIMIT: usize = 65536;

// Where the parents begin.
const PARENTS: usize = 3;

const TREE_SIZE: usize = PARENTS + 16;

// By its place, since the input may end before it.
fn byte(input: &[u8], at: usize) -> u8 {
    input.get(at).copied().unwrap_or(0)
}

// No `From`, which would be an impl of another crate's trait for another crate's type.
fn tree(input: &[u8]) -> Tree {
    Tree {
        columns: byte(input, 0) as usize,
        root: byte(input, 1) as usize,
        up: from_fn(|i| byte(input, PARENTS + i)),
        first: ASCENDING,
        watch: byte(input, 2) == 1,
    }
}

// The fresh bank of a tree; of one that is refused, a bank in which nobody runs.
fn begun(out: io::Stdout, tree: Tree) -> io::Result<Bank> {
    match fresh(tree) {
        Ok(bank) => {
            println!(out; "ok")?;
            Ok(bank)
        }
        Err(refusal) => {
            println!(out; "{refusal}")?;
            Ok(Bank::empty(tree))
        }
    }
}

fn run(out: io::Stdout, input: &[u8]) -> io::Result<()> {
    let mut station = Station {
        bank: begun(out, tree(input))?,
        network: Network::EMPTY,
    };
    let commands = input.get(TREE_SIZE..).unwrap_or(&[]);
    for bytes in commands.chunks(COMMAND_SIZE) {
        let command: [u8; COMMAND_SIZE] = from_fn(|i| byte(bytes, i));
        station.obey(out, Command::from(command))?;
    }
    Ok(())
}

// A read that fails is the end of the input, which is held in an array: no heap. frames_test has the same lines; its input.rt says why.
pub fn show(mut input_stream: io::Stdin, out: io::Stdout) -> io::Result<()> {
    let mut input = [0u8; LIMIT];
    let (n, _) = read_full(&mut input_stream, &mut input);
    run(out, &input[..n])
}
