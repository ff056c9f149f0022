// What one line of a script makes of the bank, and its text. A step of one column goes by parts of a bank of which something is known; a halt, a return and a
// dispatch may change more of it than one place and the newest packet, and take all of it. The bank is a local of the loop over lines, network and buffer are its
// caller's, and the place goes by value for speed: a struct of the four would be three loans and a place in memory.
ghost use Rattle.std.specs.Prelude.{◌+◌, ◌≤◌, ◌≡◌, true, length};
ghost use Rattle.bank.specs.Banks.{state};
ghost use Rattle.bank.specs.Parts.{Tells};
ghost use Rattle.bank.specs.StepKinds.{is_move};
ghost use Rattle.list.specs.Closing.{longest_list};
ghost use Rattle.text.specs.Text.{read};
ghost use Rattle.script.specs.Lines.{perform, dispatch, list, parsed_meant};
ghost use Rattle.script.specs.Scripts.{answered};
ghost use Rattle.script.specs.inner.ScriptLines.{Answers, Knows, TellsOf};

use crate::answer::{put_column, put_refused, put_step, put_steps};
use crate::line::Command;
use bank::bank::{Bank, Network, Step, Words};
use bank::dispatch::dispatch;
use bank::kind::is_move;
use bank::step::perform;
use bank::unchecked_for_script::{acting, step_on, test_bank};
use column::error::Refusal;

// What is known of a bank: nothing, or who runs, or by what the bank is refused. That it is so is a fact of the network's words too, which are lent. A struct with
// this invariant would hold a copy of them for proofs, and each function would then ask that the copy is what is lent.
pub(crate) type Known = Option<Result<u16, Refusal>>;

// The bank is tested where nothing is known of it.
fn tested(bank: &Bank, known: Known, heads: &Words) -> Result<u16, Refusal>
    ensures { TellsOf result known bank.now heads.now }
{
    match known {
        Some(known) => known,
        None => test_bank(*bank, heads),
    }
}

// A step that rewrites the place of one column at most.
fn move_line(
    bank: &mut Bank,
    known: &mut Known,
    x: Step,
    network: &mut Network,
    out: &mut [u8],
    at: usize,
) -> usize
    requires moves { is_move x ≡ true }
    requires tells { Knows known.old (state bank.old network.old.heads network.old.doors) }
    requires room { at + longest_list ≤ length out.old }
    ensures answers { Answers (answered (state bank.old network.old.heads network.old.doors) (read (perform x))) bank.new network.new.heads network.new.doors result out.new out.old at }
    ensures knows { Knows known.new (state bank.new network.new.heads network.new.doors) }
{
    let told = tested(bank, *known, &network.heads);
    *known = Some(told);
    let t = bank.tree;
    let i = acting(t, x, &network.heads);
    match step_on(told, t, x, i, bank.columns[i % 16], bank.count, network) {
        Ok(part) => {
            bank.columns[i % 16] = part.column;
            bank.count = part.count;
            *known = Some(part.known);
            put_step(out, at)
        }
        Err(refusal) => put_refused(out, at, refusal),
    }
}

// Any other step. `dispatch_line` has this form: it calls another function, whose answer is of another type, and puts another text.
fn whole_line(bank: &mut Bank, x: Step, network: &mut Network, out: &mut [u8], at: usize) -> usize
    requires { at + longest_list ≤ length out.old }
    ensures { Answers (answered (state bank.old network.old.heads network.old.doors) (read (perform x))) bank.new network.new.heads network.new.doors result out.new out.old at }
{
    match perform(*bank, x, network) {
        Ok(next) => {
            *bank = next;
            put_step(out, at)
        }
        Err(refusal) => put_refused(out, at, refusal),
    }
}

fn dispatch_line(
    bank: &mut Bank,
    limit: usize,
    network: &mut Network,
    out: &mut [u8],
    at: usize,
) -> usize
    requires { at + longest_list ≤ length out.old }
    ensures { Answers (answered (state bank.old network.old.heads network.old.doors) (read (dispatch limit))) bank.new network.new.heads network.new.doors result out.new out.old at }
{
    match dispatch(*bank, limit, network) {
        Ok(done) => {
            *bank = done.bank;
            put_steps(out, at, done.steps)
        }
        Err(refusal) => put_refused(out, at, refusal),
    }
}

// A list, which changes nothing.
fn list_line(
    bank: &Bank,
    known: &mut Known,
    i: usize,
    network: &Network,
    out: &mut [u8],
    at: usize,
) -> usize
    requires tells { Knows known.old (state bank.now network.now.heads network.now.doors) }
    requires room { at + longest_list ≤ length out.old }
    ensures answers { Answers (answered (state bank.now network.now.heads network.now.doors) (read (list i))) bank.now network.now.heads network.now.doors result out.new out.old at }
    ensures knows { Knows known.new (state bank.now network.now.heads network.now.doors) }
{
    let told = tested(bank, *known, &network.heads);
    *known = Some(told);
    put_column(out, at, told, bank.tree.columns, i, bank.columns[i % 16])
}

// What a line asks for is done, and its text is written from a place on; answers the place after it. A line of no form asks for nothing.
pub(crate) fn answer_line(
    bank: &mut Bank,
    known: &mut Known,
    command: Option<Command>,
    network: &mut Network,
    out: &mut [u8],
    at: usize,
) -> usize
    requires tells { Knows known.old (state bank.old network.old.heads network.old.doors) }
    requires room { at + longest_list ≤ length out.old }
    ensures answers { Answers (answered (state bank.old network.old.heads network.old.doors) (parsed_meant command)) bank.new network.new.heads network.new.doors result out.new out.old at }
    ensures knows { Knows known.new (state bank.new network.new.heads network.new.doors) }
{
    match command {
        Some(Command::Perform(x)) => {
            if is_move(x) {
                return move_line(bank, known, x, network, out, at);
            }
            *known = None;
            whole_line(bank, x, network, out, at)
        }
        Some(Command::Dispatch(limit)) => {
            *known = None;
            dispatch_line(bank, limit, network, out, at)
        }
        Some(Command::List(i)) => list_line(bank, known, i, network, out, at),
        None => put_refused(out, at, Refusal::MalformedLine),
    }
}
