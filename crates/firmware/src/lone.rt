// A column alone, and its steps: the core's own, and those that a maker has beside them, the next of a main loop and what a return makes of a column. The papers name
// the steps, so that a step is chosen by a match. Numbers of columns are tested and asked for as facts: the core's sets take them as they are.
ghost use Rattle.std.specs.Prelude.{◌≤◌, ◌<◌, ◌≡◌, IfOk};
ghost use Rattle.column.specs.Refusals.{refusal_of, meant, given_unless};
ghost use Rattle.column.specs.Columns.{validity_refusal};
ghost use Rattle.column.specs.Steps.{outcome_meant};
ghost use Rattle.firmware.specs.LoneSteps.{rests, running_others, rejoin_refusal, next as LoneSteps·next, rejoin as LoneSteps·rejoin, strike as LoneSteps·strike};
ghost use Rattle.firmware.specs.inner.StepCalls.{lone_in, acknowledges, own_rests, quiet_of, putting_of, chosen_of};

use crate::block::{COLUMN_SIZE, TREE_SIZE, column_in, own_in, tree_in};
use column::error::Refusal;
use column::members::{has, lowest};
use column::outcome::Outcome;
use column::packet::Packet;
use column::page;
use column::refusal::{may_acknowledge, watched};
use column::returning::{rejoin, strike};
use column::state::{Column, check_validity};
use column::step::{ack, all, halt, note, order, send, take};
use column::tree::Tree;

// The record that a column comes back with, whose it is, and the set of the columns that remain halted.
#[derive(Clone, Copy)]
pub struct Return {
    pub copied: usize,
    pub number: u32,
    pub doors: u64,
    pub halted: usize,
}

// The steps that put no packet. An enum and no closures: what the laws say of each step, they say of all values of this type (`quiet_told`, `quiet_steps`).
#[derive(Clone, Copy)]
pub enum QuietStep {
    Order(u64),
    All,
    Note(usize),
    Halt,
    // The offset in the page, and the byte to write there.
    Write(usize, u8),
    Rejoin(Return),
    Strike(usize),
}

// The steps that may put a packet. An enum for the same reason (`step_told`, `call_steps`, `putting_writable`).
#[derive(Clone, Copy)]
pub enum PuttingStep {
    Send,
    Take(Packet),
    Ack,
    Next,
}

// One of the core's steps. An enum and no closures: one place calls the steps, so that they are compiled into it.
#[derive(Clone, Copy)]
enum Chosen {
    Send,
    Take(Packet),
    Ack,
    All,
}

// The columns but i that are none of those halted.
fn running_others(columns: usize, halted: u16, i: usize) -> u16
    requires { (columns ≤ 16) × (i < 16) }
    ensures { result ≡ running_others columns halted i }
{
    let all = ((1u32 << columns) - 1) as u16;
    let own = 1u16 << i;
    let others = (all | halted) ^ halted;
    (others | own) ^ own
}

// A column, which one of its bank it is, and the bank's tree.
#[derive(Clone, Copy)]
pub struct LoneColumn {
    pub tree: Tree,
    pub own: u8,
    pub column: Column,
}

impl LoneColumn {
    // The column that two blocks mean.
    pub fn in_blocks(tree: &[u8; TREE_SIZE], column: &[u8; COLUMN_SIZE]) -> LoneColumn
        ensures { result ≡ lone_in tree.now column.now }
    {
        LoneColumn {
            tree: tree_in(tree),
            own: own_in(column),
            column: column_in(column),
        }
    }

    // Whether the column, which runs and whose tree and state are valid, may acknowledge to someone.
    #[tactic(auto, unfolding(crate::specs::inner::StepCalls::acknowledges))]
    fn acknowledges(&self) -> bool
        ensures { result ≡ acknowledges self.now.tree self.now.own self.now.column }
    {
        let c = self.column;
        c.owed != 0 && may_acknowledge(self.tree, usize::from(self.own), c)
    }

    // The first accepted of send, ack and all, by their own conditions: what these have in common is tested once, by the step itself.
    #[tactic(auto, using(crate::specs::laws::LoneLaws::next_sends, crate::specs::laws::LoneLaws::next_acknowledges, crate::specs::laws::LoneLaws::next_takes_over))]
    fn next(&self) -> Chosen
        ensures { chosen_of result self.now.tree self.now.own self.now.column ≡ LoneSteps·next self.now.tree self.now.own self.now.column }
    {
        if self.column.send != 0 {
            return Chosen::Send;
        }
        if self.acknowledges() {
            return Chosen::Ack;
        }
        Chosen::All
    }

    // Whether the column, whose tree and state are valid, does not run, or could neither send nor acknowledge nor take over.
    #[tactic(auto, using(crate::specs::laws::LoneLaws::rest_acknowledges, crate::specs::laws::LoneLaws::rest_root, crate::specs::laws::LoneLaws::rest_watched, crate::specs::laws::LoneLaws::rest_noted))]
    fn own_rests(&self) -> bool
        ensures { result ≡ own_rests self.now.tree self.now.own self.now.column }
    {
        let c = self.column;
        if !c.running {
            return true;
        }
        if c.send != 0 {
            return false;
        }
        if self.acknowledges() {
            return false;
        }
        if usize::from(self.own) == self.tree.root {
            return true;
        }
        if !has(c.noted, watched(self.tree, c)) {
            return true;
        }
        c.whole || c.awaited != 0
    }

    // Whether the column does not run, or could neither send nor acknowledge nor take over; or 2 to 4.
    #[tactic(auto, using(crate::specs::laws::LoneLaws::rests_by))]
    #[inline(always)]
    pub fn rests(&self) -> Result<bool, Refusal>
        ensures { meant result ≡ given_unless (validity_refusal self.now.tree self.now.own self.now.column) (rests self.now.tree self.now.own self.now.column) }
    {
        check_validity(self.tree, usize::from(self.own), self.column)?;
        Ok(self.own_rests())
    }

    // The columns that remain halted, as a set; or by which of 2 to 4, 6 where it runs, 15 of the root and 16 where no other runs the column does not come back.
    #[tactic(auto, using(column::specs::laws::StateLaws::validity_refusal_sixteen, column::specs::laws::StateLaws::validity_refusal_column), unfolding(crate::specs::LoneSteps::rejoin_refusal))]
    fn check_return(&self, back: Return) -> Result<u16, Refusal>
        ensures refusal { refusal_of result ≡ rejoin_refusal self.now.tree self.now.own self.now.column back.copied back.halted }
        ensures set { IfOk result (λ set. set ≡ back.halted) }
    {
        let i = usize::from(self.own);
        check_validity(self.tree, i, self.column)?;
        if back.halted >> self.tree.columns != 0 {
            return Err(Refusal::OutOfBank);
        }
        let halted = back.halted as u16;
        if has(halted, i) {
            return Err(Refusal::OutOfBank);
        }
        let others = running_others(self.tree.columns, halted, i);
        if others != 0 && back.copied != lowest(others) {
            return Err(Refusal::OutOfBank);
        }
        if self.column.running {
            return Err(Refusal::NotNow);
        }
        if i == self.tree.root {
            return Err(Refusal::RootReturns);
        }
        if others == 0 {
            return Err(Refusal::NobodyRuns);
        }
        Ok(halted)
    }

    // The column as it comes back with a record of another.
    #[tactic(auto, unfolding(crate::specs::LoneSteps::rejoin_effect))]
    fn come_back(&self, back: Return) -> Result<Outcome, Refusal>
        ensures { outcome_meant self.now.column result ≡ LoneSteps·rejoin self.now.tree self.now.own self.now.column back.copied back.number back.doors back.halted }
    {
        let halted = self.check_return(back)?;
        let mut record = self.column;
        record.number = back.number;
        record.doors = back.doors;
        let root_halted = has(halted, self.tree.root);
        Ok(Outcome::done(rejoin(self.column, record, halted, root_halted, back.copied)))
    }

    // The column with another, which comes back, no longer noted; or 2 to 4, and 14 where it could still act.
    #[tactic(auto, unfolding(crate::specs::LoneSteps::strike_refusal))]
    #[inline(never)]
    fn strike(&self, back: usize) -> Result<Outcome, Refusal>
        ensures { outcome_meant self.now.column result ≡ LoneSteps·strike self.now.tree self.now.own self.now.column back }
    {
        let rests = self.rests()?;
        if self.tree.columns <= back || back == usize::from(self.own) {
            return Err(Refusal::OutOfBank);
        }
        if !rests {
            return Err(Refusal::NotAtRest);
        }
        Ok(Outcome::done(strike(self.column, back)))
    }

    // What a step that puts no packet makes of the column.
    pub fn quiet_step(&self, x: QuietStep) -> Result<Outcome, Refusal>
        ensures { outcome_meant self.now.column result ≡ quiet_of x self.now.tree self.now.own self.now.column }
    {
        let t = self.tree;
        let i = usize::from(self.own);
        let c = self.column;
        match x {
            QuietStep::Order(doors) => order(t, i, c, doors),
            QuietStep::All => all(t, i, c),
            QuietStep::Note(j) => note(t, i, c, j),
            QuietStep::Halt => halt(t, i, c),
            QuietStep::Write(offset, value) => page::write(t, i, c, offset, value),
            QuietStep::Rejoin(back) => self.come_back(back),
            QuietStep::Strike(back) => self.strike(back),
        }
    }

    // Which of the core's steps is taken.
    fn choice_of(&self, x: PuttingStep) -> Chosen
        ensures { chosen_of result self.now.tree self.now.own self.now.column ≡ putting_of x self.now.tree self.now.own self.now.column }
    {
        match x {
            PuttingStep::Send => Chosen::Send,
            PuttingStep::Take(p) => Chosen::Take(p),
            PuttingStep::Ack => Chosen::Ack,
            PuttingStep::Next => self.next(),
        }
    }

    // What a step that may put a packet makes of the column.
    pub fn putting_step(&self, x: PuttingStep) -> Result<Outcome, Refusal>
        ensures { outcome_meant self.now.column result ≡ putting_of x self.now.tree self.now.own self.now.column }
    {
        let t = self.tree;
        let i = usize::from(self.own);
        let c = self.column;
        match self.choice_of(x) {
            Chosen::Send => send(t, i, c),
            Chosen::Take(p) => take(t, i, c, p),
            Chosen::Ack => ack(t, i, c),
            Chosen::All => all(t, i, c),
        }
    }
}
