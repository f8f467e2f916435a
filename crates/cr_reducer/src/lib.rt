//! A wave of units as its workers see it: which unit each of them gets, what has happened, and the
//! facts of the units that are answered. A plain value, with no lock.
#![tactic(auto)]

ghost use Rattle.std.specs.Prelude.{◌≡◌, ◌<◌, ◌≤◌, ◌↔◌, ℕ, [], ◌∷◌, ◌++◌, length, true, false, None, Some, IfOk, OnOk, OnErr, option_map};
ghost use Rattle.std.specs.Option.{option_copied};
ghost use Rattle.cr_core.specs.Assignment as spec;
ghost use Rattle.cr_core.specs.Assignment.{answered, grant, holds_this, asked};
ghost use Rattle.cr_core.specs.Law as law;
ghost use Rattle.cr_core.specs.Law.{has_ended, ended_after};
ghost use Rattle.cr_core.specs.declared.Happened.TheVariants.{Lost};
ghost use Rattle.cr_facts.specs.FactOrder.{Facts};
ghost use Rattle.cr_reducer.specs.Table.{EveryTableIsWhole};
ghost use Rattle.cr_reducer.specs.Wave.{begun, IsReplayed, assign_stray, answer_stray, lose_stray, after_assign, after_answer, after_lose, stray_of, fault_stray, entered, answer_entered, with_table, table_after, reply_to, unless_no_memory};

#[cfg(test)]
mod tests;

use cr_base::OutOfMemory;
pub use cr_core::Happened;
use cr_core::{Core, Grant, Reply, Why, every_list_is_lawful, first_answers_bring_all_facts};
use cr_facts::{Ends, Fact, FactSet, facts_are_ordered};
use std::alloc::Global;
use std::marker::Model;

/// Why a call was refused.
#[derive(Clone, Copy, Debug, PartialEq, Eq)]
pub enum Stray {
    /// The worker holds this.
    Holds(Option<u32>),
    /// The worker has had its `Finished`.
    Ended,
    /// The unit is not answered, so it is not lost as cancelled.
    Unanswered(u32),
}

/// Why an answer was not taken.
#[derive(Clone, Copy, Debug, PartialEq, Eq)]
pub enum AnswerFault {
    Stray(Stray),
    OutOfMemory,
}

/// A wave of units.
#[derive(Drop)]
pub struct Reducer {
    core: Core,
    ended: Vec<bool>,
    history: Vec<Happened>,
    table: FactSet,
}

impl Model for Reducer {
    ghost use Rattle.std.specs.Prelude.{◌≤◌, length, vec_capacity};
    ghost use Rattle.cr_reducer.specs.Wave.{Wave, IsReplayed, most_events};
    ghost use Rattle.std.specs.Coded.{codes};
    ghost use Rattle.cr_facts.specs.FactOrder.{facts_code};

    ghost Value = { Wave };

    ghost coded = { Prim.hlevel (codes, facts_code) };

    ghost view = { λ r. record { state = r.core; ended = r.ended.items; history = r.history.items; table = r.table } };

    ghost invariant = { λ r. IsReplayed (record { state = r.core; ended = r.ended.items; history = r.history.items; table = r.table })
        × (most_events (record { state = r.core; ended = r.ended.items; history = r.history.items; table = r.table }) ≤ vec_capacity r.history)
        × (length r.ended.items ≤ 16) };
}

impl Reducer {
    /// A wave of so many units for so many workers, in which nothing has happened. All entries that
    /// its history can ever have find room here. Only want of memory is an error.
    pub fn start(
        alloc: Global,
        units: u32,
        workers: u32,
        retries: u32,
    ) -> Result<Reducer, OutOfMemory>
        requires units { units ≤ 16384 }
        requires workers { (1 ≤ workers) × (workers ≤ 16) }
        requires retries { retries ≤ 8 }
        ensures { IfOk result (λ reducer. reducer ≡ begun units workers retries) }
    {
        let core = Core::start(alloc, units, retries)?;
        let ended = vec![in alloc; false; workers as usize]?;
        let entries = 2 * units as usize * (retries as usize + 3) + workers as usize;
        let history = Vec::with_capacity(alloc, entries)?;
        Ok(Reducer {
            core,
            ended,
            history,
            table: FactSet::new(alloc),
        })
    }

    /// Gives the worker a unit, or `Finished`, as `Core::assign` does. Refused with what the worker
    /// holds, where it holds a unit, and as `Ended` where it has had its `Finished`; a worker
    /// outside the wave counts as one that has. A refusal changes nothing.
    pub fn assign(&mut self, worker: u32) -> Result<Grant, Stray>
        requires { worker < 16 }
        ensures grant { IfOk result (λ given. given ≡ grant self.old.state worker) }
        ensures stray { stray_of result ≡ assign_stray self.old worker }
        ensures ended { (stray_of result ≡ Some Stray.Ended) ↔ (has_ended self.old.ended worker ≡ true) }
        ensures wave { self.new ≡ after_assign self.old worker }
    {
        match self.assign_stray(worker) {
            Some(stray) => Err(stray),
            None => Ok(self.assign_now(worker)),
        }
    }

    /// Whether the unit is answered; false where there is no such unit.
    pub fn beat(&self, unit: u32) -> bool
        ensures { result ≡ answered self.now.state unit }
    {
        self.core.beat(unit)
    }

    /// The worker loses the unit that it holds. Refused with what the worker holds, where that is
    /// not this unit, and as `Unanswered` where a unit without an answer is lost as `Cancelled`. A
    /// refusal changes nothing.
    pub fn lose(&mut self, worker: u32, unit: u32, why: Why) -> Result<(), Stray>
        ensures stray { stray_of result ≡ lose_stray self.old worker unit why }
        ensures wave { self.new ≡ after_lose self.old worker unit why }
    {
        match self.lose_stray(worker, unit, why) {
            Some(stray) => Err(stray),
            None => {
                self.lose_now(worker, unit, why);
                Ok(())
            }
        }
    }

    /// The worker answers the unit that it holds. The facts of a first answer are united with the
    /// table, and a repeated answer leaves it. Refused with what the worker holds, where that is not
    /// this unit. A refusal, and want of memory, change nothing.
    pub fn answer<E: Ends>(&mut self, worker: u32, unit: u32, end: &E) -> Result<Reply, AnswerFault>
        ensures reply { IfOk result (λ reply. reply ≡ reply_to self.old unit) }
        ensures stray { fault_stray result ≡ answer_stray self.old worker unit }
        ensures wave { self.new ≡ unless_no_memory result self.old (after_answer self.old worker unit (E.facts end.now)) }
    {
        match self.answer_stray(worker, unit) {
            Some(stray) => Err(AnswerFault::Stray(stray)),
            None => match self.unite(unit, end) {
                Ok(()) => Ok(self.answer_now(worker, unit)),
                Err(OutOfMemory) => Err(AnswerFault::OutOfMemory),
            },
        }
    }

    /// What has happened, in order. The wave is what this makes of its beginning.
    pub fn history(&self) -> &[Happened]
        ensures value { result.now ≡ self.now.history }
        ensures replayed { IsReplayed self.now }
    {
        &self.history
    }

    /// The facts of the units that are answered.
    pub fn table(&self) -> &FactSet
        ensures { result.now ≡ self.now.table }
    {
        &self.table
    }

    fn assign_stray(&self, worker: u32) -> Option<Stray>
        ensures stray { result ≡ assign_stray self.now worker }
        ensures ended { (result ≡ Some Stray.Ended) ↔ (has_ended self.now.ended worker ≡ true) }
    {
        // A worker that has had its Finished holds nothing.
        every_list_is_lawful();
        match self.core.held(worker) {
            Some(unit) => Some(Stray::Holds(Some(unit))),
            None => {
                if has_ended(&self.ended, worker) {
                    Some(Stray::Ended)
                } else {
                    None
                }
            }
        }
    }

    fn answer_stray(&self, worker: u32, unit: u32) -> Option<Stray>
        ensures { result ≡ answer_stray self.now worker unit }
    {
        let held = self.core.held(worker);
        if holds_this(unit, held) {
            None
        } else {
            Some(Stray::Holds(held))
        }
    }

    fn lose_stray(&self, worker: u32, unit: u32, why: Why) -> Option<Stray>
        ensures { result ≡ lose_stray self.now worker unit why }
    {
        match self.answer_stray(worker, unit) {
            Some(stray) => Some(stray),
            None => {
                if may_lose(why, self.core.beat(unit)) {
                    None
                } else {
                    Some(Stray::Unanswered(unit))
                }
            }
        }
    }

    fn assign_now(&mut self, worker: u32) -> Grant
        requires worker { worker < 16 }
        requires welcome { assign_stray self.old worker ≡ None }
        ensures reply { result ≡ grant self.old.state worker }
        ensures wave { self.new ≡ entered self.old (asked worker (grant self.old.state worker)) }
    {
        // So the history keeps within what `start` reserved.
        every_list_is_lawful();
        let grant = self.core.assign(worker);
        let entry = asked(worker, grant);
        mark(&mut self.ended, entry);
        self.history.push_reserved(entry);
        grant
    }

    fn lose_now(&mut self, worker: u32, unit: u32, why: Why)
        requires { lose_stray self.old worker unit why ≡ None }
        ensures { self.new ≡ entered self.old (Lost worker unit why) }
    {
        every_list_is_lawful();
        self.core.lose(worker, unit, why);
        self.history
            .push_reserved(Happened::Lost(worker, unit, why));
    }

    fn answer_now(&mut self, worker: u32, unit: u32) -> Reply
        requires { answer_stray self.old worker unit ≡ None }
        ensures reply { result ≡ reply_to self.old unit }
        ensures wave { self.new ≡ answer_entered self.old worker unit }
    {
        every_list_is_lawful();
        let reply = self.core.answer(worker, unit);
        self.history
            .push_reserved(Happened::Answered(worker, unit, reply));
        reply
    }

    // Takes the facts of an end for a unit that is not answered yet.
    fn unite<E: Ends>(&mut self, unit: u32, end: &E) -> Result<(), OutOfMemory>
        ensures ok { OnOk result (self.new ≡ with_table self.old (table_after (reply_to self.old unit) (E.facts end.now) self.old.table)) }
        ensures err { OnErr result (self.new ≡ self.old) }
    {
        if self.core.beat(unit) {
            return Ok(());
        }
        match end.facts() {
            Some(facts) => self.table.union(facts),
            None => Ok(()),
        }
    }
}

/// A law over every list of events that the rules allow, after which all units are answered: where
/// the first answer of each unit has the facts of that unit, the table has just the facts of the
/// units, in whatever order the answers came and with whatever losses, repeats and backups. It does
/// no work.
pub fn every_table_is_whole()
    ensures { EveryTableIsWhole }
{
    facts_are_ordered();
    first_answers_bring_all_facts::<Fact>();
}

fn mark(ended: &mut Vec<bool>, entry: Happened)
    requires { law.is_in_time ended.old.items entry ≡ true }
    ensures { ended.new.items ≡ ended_after ended.old.items entry }
{
    match entry {
        Happened::Finished(worker) => ended[worker as usize] = true,
        Happened::Assigned(_, _, _) | Happened::Answered(_, _, _) | Happened::Lost(_, _, _) => {}
    }
}

fn asked(worker: u32, grant: Grant) -> Happened
    ensures { result ≡ spec.asked worker grant }
{
    match grant {
        Grant::Work(unit, attempt) => Happened::Assigned(worker, unit, attempt),
        Grant::Finished => Happened::Finished(worker),
    }
}

fn has_ended(ended: &[bool], worker: u32) -> bool
    ensures { result ≡ law.has_ended ended.now worker }
{
    match ended.get(worker as usize) {
        Some(ended) => *ended,
        None => true,
    }
}

fn holds_this(unit: u32, held: Option<u32>) -> bool
    ensures { result ≡ spec.holds_this unit held }
{
    match held {
        Some(other) => other == unit,
        None => false,
    }
}

fn may_lose(why: Why, answered: bool) -> bool
    ensures { result ≡ spec.may_lose why answered }
{
    match why {
        Why::Cancelled => answered,
        Why::Struck | Why::Memory | Why::Undriven => true,
    }
}
