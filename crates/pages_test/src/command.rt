// What a command asks, and what is answered.
use bank::bank::{Bank, Network, Step};
use bank::dispatch::dispatch;
use bank::page::{line_up, read};
use bank::step::perform;
use column::error::Refusal;
use column::page::PAGE_SIZE;
use std::io;

// The bytes of a command.
pub const COMMAND_SIZE: usize = 5;

pub enum Command {
    // The page of a column, a byte to a line, and its line.
    Page(usize),
    // The byte of a column's page at an offset.
    Read(usize, usize),
    // At most so many steps, as the bank takes them itself.
    Dispatch(usize),
    Perform(Step),
}

// A letter, and four numbers of a byte each; a number of two bytes has the low one first. Any other letter than these is that of a write.
// A match, since each letter makes a command of its own parts: a table of functions would hide which.
impl From<[u8; COMMAND_SIZE]> for Command {
    fn from(bytes: [u8; COMMAND_SIZE]) -> Command {
        let [letter, x, y, z, value] = bytes;
        let i = x as usize;
        let set = u16::from_le_bytes([x, y]);
        let offset = u16::from_le_bytes([y, z]) as usize;
        match letter {
            b'p' => Command::Page(i),
            b'r' => Command::Read(i, offset),
            b'd' => Command::Dispatch(set as usize),
            b'o' => Command::Perform(Step::Order(set as u64)),
            b's' => Command::Perform(Step::Send(i)),
            b't' => Command::Perform(Step::Take(set as usize)),
            b'a' => Command::Perform(Step::Ack(i)),
            b'g' => Command::Perform(Step::All(i)),
            b'n' => Command::Perform(Step::Note(i, y as usize)),
            b'h' => Command::Perform(Step::Halt(set as u32)),
            b'b' => Command::Perform(Step::Back(i)),
            _ => Command::Perform(Step::Write(i, offset, value)),
        }
    }
}

fn show_byte(out: io::Stdout, byte: Result<u8, Refusal>) -> io::Result<()> {
    match byte {
        Ok(value) => println!(out; "byte={value}"),
        Err(refusal) => println!(out; "{refusal}"),
    }
}

// A bank with the arrays that it is lent.
#[derive(Drop)]
pub struct Station {
    pub bank: Bank,
    pub network: Network,
}

impl Station {
    fn show_page(&self, out: io::Stdout, i: usize) -> io::Result<()> {
        for offset in 0..PAGE_SIZE {
            show_byte(out, read(self.bank, i, offset, &self.network.heads))?;
        }
        match line_up(self.bank, i, &self.network.heads) {
            Ok(true) => println!(out; "line=up"),
            Ok(false) => println!(out; "line=down"),
            Err(refusal) => println!(out; "{refusal}"),
        }
    }

    fn dispatch(&mut self, out: io::Stdout, limit: usize) -> io::Result<()> {
        match dispatch(self.bank, limit, &mut self.network) {
            Ok(done) => {
                self.bank = done.bank;
                println!(out; "ok\nsteps={}", done.steps)
            }
            Err(refusal) => println!(out; "{refusal}\nsteps=0"),
        }
    }

    fn perform(&mut self, out: io::Stdout, step: Step) -> io::Result<()> {
        match perform(self.bank, step, &mut self.network) {
            Ok(bank) => {
                self.bank = bank;
                println!(out; "ok")
            }
            Err(refusal) => println!(out; "{refusal}"),
        }
    }

    // The command is obeyed, and its answer printed.
    pub fn obey(&mut self, out: io::Stdout, command: Command) -> io::Result<()> {
        match command {
            Command::Page(i) => self.show_page(out, i),
            Command::Read(i, offset) => show_byte(
                out,
                read(self.bank, i, offset, &self.network.heads),
            ),
            Command::Dispatch(limit) => self.dispatch(out, limit),
            Command::Perform(step) => self.perform(out, step),
        }
    }
}
