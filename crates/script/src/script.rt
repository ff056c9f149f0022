// A script's run: the table's answer, then each line's, last whether the bank is at rest. A caller lends a buffer, prints the texts that were
// written into it and lends it again, so that no buffer bounds what a script prints. The buffer and the place in it go apart, as in `answer`.
ghost use Rattle.std.specs.Prelude.{◌+◌, ◌≤◌, ◌<◌, ◌≡◌, length};
ghost use Rattle.bank.specs.Banks.{state};
ghost use Rattle.list.specs.Closing.{longest_list};
ghost use Rattle.script.specs.Scripts.{rest_text};
ghost use Rattle.script.specs.Advances.{progress_of, start_run, Advanced, buffer_size, fill};
ghost use Rattle.text.specs.Text.{Writes};
ghost use Rattle.script.specs.inner.ScriptLines.{ReadsLine, Begins, AdvancedFirst, run_to, Reaches, Fills};

use crate::answer::put_refused;
use crate::line::{Command, parse};
use crate::one_line::answer_line;
use bank::bank::{Bank, Network, fresh};
use bank::rest::at_rest;
use column::error::Refusal;
use column::tree::{ASCENDING, Tree};
use list::list::LONGEST;
use table::table::{LIMIT, read_table};
use text::search::line_end;
use text::writing::put_all;

// What a run is lent for its texts.
pub const BUFFER: usize = 16384;

// Up to here the longest text fits.
const ROOM: usize = BUFFER - LONGEST;

// Two flags, since a run that is over prints nothing, whether its table is read or not.
#[derive(Clone, Copy)]
pub struct Run {
    pub bank: Bank,
    // Where the next line begins.
    pub position: usize,
    // The table is read.
    pub begun: bool,
    // Nothing more is printed.
    pub over: bool,
    // How many bytes of the lent buffer are the text to print. The buffer is the caller's, and no part of the run.
    pub length: usize,
}

#[derive(Clone, Copy)]
struct NextLine {
    command: Option<Command>,
    // Where the line after it begins.
    next: usize,
}

// A fresh bank, and where its table ends.
#[derive(Clone, Copy)]
struct Begun {
    bank: Bank,
    position: usize,
}

// A run whose table is read.
fn run_to(bank: Bank, position: usize, over: bool, length: usize) -> Run
    ensures { result ≡ run_to bank position over length }
{
    Run {
        bank,
        position,
        begun: true,
        over,
        length,
    }
}

fn put_rest(b: Bank, network: &Network, out: &mut [u8], at: usize) -> usize
    requires { at + longest_list ≤ length out.old }
    ensures { Writes result out.new out.old at (rest_text (state b network.now.heads network.now.doors)) }
{
    if at_rest(b, network) {
        return put_all(out, at, b"rest=yes\n");
    }
    put_all(out, at, b"rest=no\n")
}

// The line that begins at `start`; a last piece without byte 10 is of no form. The input is lent whole, since the next line's place is one of it.
fn next_line(input: &[u8], start: usize) -> NextLine
    requires { start < length input.now }
    ensures { ReadsLine result input.now start }
{
    match line_end(input, start) {
        Some(end) => NextLine {
            command: parse(&input[start..end]),
            next: end + 1,
        },
        None => NextLine {
            command: None,
            next: input.len(),
        },
    }
}

// The next lines, until all are read or the buffer is full. The bank is a local all through them, of which nothing is known at first. A `while`, since a line ends
// where its byte 10 is, and how much room it leaves is known once it is answered. The run, the input and the network are lent anew at each call of `fill`.
fn lines(r: Run, input: &[u8], network: &mut Network, out: &mut [u8]) -> Run
    requires { buffer_size ≤ length out.old }
    ensures { Reaches result network.new.heads network.new.doors out.new input.now r (state r.bank network.old.heads network.old.doors) out.old }
{
    let mut bank = r.bank;
    let mut known = None;
    let mut position = r.position;
    let mut at = r.length;
    while (at <= ROOM) & (position < input.len()) {
        let line = next_line(input, position);
        position = line.next;
        at = answer_line(&mut bank, &mut known, line.command, network, out, at);
    }
    run_to(bank, position, false, at)
}

// After the table.
fn later(r: Run, input: &[u8], network: &mut Network, out: &mut [u8]) -> Run
    requires { buffer_size ≤ length out.old }
    ensures { Fills result network.new.heads network.new.doors out.new input.now r (state r.bank network.old.heads network.old.doors) out.old }
{
    let run = lines(r, input, network, out);
    if ROOM < run.length {
        return run;
    }
    let at = put_rest(run.bank, network, out, run.length);
    run_to(run.bank, run.position, true, at)
}

// The fresh bank of the table that an input begins with, and where the table ends; 13 of an input past the limit, or what the table is refused with.
// `losses_of` of `losses_text` begins alike; what they share is a test and a call.
fn begin(input: &[u8]) -> Result<Begun, Refusal>
    ensures { Begins result input.now }
{
    if LIMIT < input.len() {
        return Err(Refusal::MalformedLine);
    }
    let table = read_table(input)?;
    let bank = fresh(table.tree)?;
    Ok(Begun {
        bank,
        position: table.end,
    })
}

fn first(r: Run, input: &[u8], out: &mut [u8]) -> Run
    requires { longest_list ≤ length out.old }
    ensures { AdvancedFirst result out.new out.old input.now r }
{
    match begin(input) {
        Ok(begun) => {
            let length = put_all(out, 0, b"table=ok\n");
            run_to(begun.bank, begun.position, false, length)
        }
        Err(refusal) => {
            let length = put_refused(out, 0, refusal);
            run_to(r.bank, r.position, true, length)
        }
    }
}

// The run to begin with. Before the table is read there is no bank.
pub fn start() -> Run
    ensures { result ≡ start_run }
{
    Run {
        bank: Bank::empty(Tree {
            columns: 0,
            root: 0,
            up: [0; 16],
            first: ASCENDING,
            watch: false,
        }),
        position: 0,
        begun: false,
        over: false,
        length: 0,
    }
}

// The run after its next texts, which are the first `length` bytes of `out`: all, or as many until less room is left than the longest
// takes; a run that is over has none left.
pub fn fill(r: Run, input: &[u8], network: &mut Network, out: &mut [u8; BUFFER]) -> Run
    ensures { Advanced result network.new.heads network.new.doors out.new out.old (fill input.now (progress_of r network.old.heads network.old.doors out.old)) }
{
    let mut run = r;
    run.length = 0;
    if run.over {
        return run;
    }
    if run.begun {
        return later(run, input, network, out);
    }
    let begun = first(run, input, out);
    if begun.over {
        return begun;
    }
    later(begun, input, network, out)
}
