//! Which worker does which unit: a value with no thread and no lock.
#![tactic(auto)]

ghost use Rattle.std.specs.Prelude.{◌≡◌, ◌<◌, ◌≤◌, ℕ, length, IfOk, IfSome, Some, None, true, replicate};
ghost use Rattle.std.specs.List.{position};
ghost use Rattle.cr_core.specs.Assignment as spec;
ghost use Rattle.cr_core.specs.Assignment.{start, grant, reply_of, holding, answered, may_lose, asked, assignment_step, after_assign, after_answer, after_lose};
ghost use Rattle.cr_core.specs.Law.{EveryListIsLawful, FirstAnswersBringAllFacts};

mod progress;
#[cfg(test)]
mod tests;

use cr_base::OutOfMemory;
use progress::Progress;
use std::alloc::Global;
use std::marker::Model;

/// What a worker is given: a unit and the number of the attempt, or nothing more.
#[derive(Clone, Copy, Debug, PartialEq, Eq)]
pub enum Grant {
    Work(u32, u32),
    Finished,
}

/// What an answer is told: whether it was the first of its unit.
#[derive(Clone, Copy, Debug, PartialEq, Eq)]
pub enum Reply {
    First,
    Repeat,
}

/// Why a worker lost its unit.
#[derive(Clone, Copy, Debug, PartialEq, Eq)]
pub enum Why {
    /// A rehearsed fault hit the attempt.
    Struck,
    /// Memory was short.
    Memory,
    /// The attempt's future could not be driven to its end.
    Undriven,
    /// The unit was answered by another worker.
    Cancelled,
}

/// One event with its reply; the worker comes first, then the unit.
#[derive(Clone, Copy, Debug, PartialEq, Eq)]
pub enum Happened {
    Assigned(u32, u32, u32),
    Finished(u32),
    Answered(u32, u32, Reply),
    Lost(u32, u32, Why),
}

/// The assignment of the units of one wave to workers.
#[derive(Drop)]
pub struct Core {
    retries: u32,
    units: Vec<Progress>,
}

impl Model for Core {
    ghost use Rattle.std.specs.Prelude.{◌≤◌, ◌≡◌, true, length};
    ghost use Rattle.std.specs.List.{list_all};
    ghost use Rattle.cr_core.specs.Assignment.{State};
    ghost use Rattle.cr_core.specs.Sound.{is_sound};

    ghost Value = { State };

    ghost view = { λ c. record { retries = c.retries; units = c.units.items } };

    ghost invariant = { λ c. (length c.units.items ≤ 16384)
        × (c.retries ≤ 8)
        × (list_all (is_sound c.retries) c.units.items ≡ true) };
}

impl Core {
    /// A wave of so many units, none of them assigned. Only want of memory is an error.
    pub fn start(alloc: Global, units: u32, retries: u32) -> Result<Core, OutOfMemory>
        requires { (units ≤ 16384) × (retries ≤ 8) }
        ensures { IfOk result (λ core. core ≡ start units retries) }
    {
        let units = untouched(alloc, units)?;
        Ok(Core { retries, units })
    }

    /// Gives the worker, who holds nothing, a unit: the least unit that is unanswered, neither
    /// spent nor dry, and held by nobody; else the least such unit that one other worker holds;
    /// else `Finished`. The attempt is the number of the unit's earlier assignments.
    pub fn assign(&mut self, worker: u32) -> Grant
        requires { (worker < 16) × (holding self.old worker ≡ None) }
        ensures reply { result ≡ grant self.old worker }
        ensures state { self.new ≡ after_assign self.old worker }
        ensures step { assignment_step self.old (asked worker result) ≡ Some self.new }
    {
        match self.choice(worker) {
            Some(unit) => Grant::Work(unit as u32, self.give(worker, unit)),
            None => Grant::Finished,
        }
    }

    /// Whether the unit is answered; false where there is no such unit.
    pub fn beat(&self, unit: u32) -> bool
        ensures { result ≡ answered self.now unit }
    {
        match self.units.get(unit as usize) {
            Some(progress) => progress.is_answered,
            None => false,
        }
    }

    /// The unit that the worker holds.
    pub fn held(&self, worker: u32) -> Option<u32>
        ensures { result ≡ holding self.now worker }
    {
        first_held(&self.units, worker).map(|unit| unit as u32)
    }

    /// The worker answers the unit that it holds: `Repeat` exactly where it was answered before.
    pub fn answer(&mut self, worker: u32, unit: u32) -> Reply
        requires { holding self.old worker ≡ Some unit }
        ensures reply { result ≡ reply_of (answered self.old unit) }
        ensures state { self.new ≡ after_answer self.old worker unit }
        ensures step { assignment_step self.old (Happened.Answered worker unit result) ≡ Some self.new }
    {
        let progress = self.units[unit as usize];
        self.units[unit as usize] = progress.when_answered(worker);
        if progress.is_answered {
            Reply::Repeat
        } else {
            Reply::First
        }
    }

    /// The worker loses the unit that it holds. Only an answered unit is lost as `Cancelled`.
    pub fn lose(&mut self, worker: u32, unit: u32, why: Why)
        requires held { holding self.old worker ≡ Some unit }
        requires cancelled { may_lose why (answered self.old unit) ≡ true }
        ensures state { self.new ≡ after_lose self.old worker unit why }
        ensures step { assignment_step self.old (Happened.Lost worker unit why) ≡ Some self.new }
    {
        let progress = self.units[unit as usize];
        self.units[unit as usize] = progress.when_lost(worker, why);
    }

    fn choice(&self, worker: u32) -> Option<usize>
        ensures choice { result ≡ spec.choice self.now worker }
        ensures within { IfSome result (λ unit. unit < 16384) }
    {
        match first_free(&self.units, self.retries) {
            Some(unit) => Some(unit),
            None => first_backup(&self.units, self.retries, worker),
        }
    }

    // Answers the number of the attempt.
    fn give(&mut self, worker: u32, unit: usize) -> u32
        requires { spec.choice self.old worker ≡ Some unit }
        ensures attempt { result ≡ (spec.unit_at self.old unit).assigned }
        ensures state { self.new ≡ spec.changed self.old unit (spec.when_assigned worker) }
    {
        let progress = self.units[unit];
        self.units[unit] = progress.when_assigned(worker);
        progress.assigned
    }
}

fn first_held(units: &[Progress], worker: u32) -> Option<usize>
    ensures first { result ≡ position (λ x. spec.is_held_by worker x.holders) units.now }
    ensures within { IfSome result (λ unit. unit < length units.now) }
{
    units.iter().position(|unit| unit.is_held_by(worker))
}

fn first_free(units: &[Progress], retries: u32) -> Option<usize>
    ensures first { result ≡ position (spec.may_begin retries) units.now }
    ensures within { IfSome result (λ unit. unit < length units.now) }
{
    units.iter().position(|unit| unit.may_begin(retries))
}

fn first_backup(units: &[Progress], retries: u32, worker: u32) -> Option<usize>
    ensures first { result ≡ position (spec.may_back_up retries worker) units.now }
    ensures within { IfSome result (λ unit. unit < length units.now) }
{
    units
        .iter()
        .position(|unit| unit.may_back_up(retries, worker))
}

fn untouched(alloc: Global, units: u32) -> Result<Vec<Progress>, OutOfMemory>
    ensures { IfOk result (λ all. all.items ≡ replicate units spec.untouched) }
{
    let all = vec![in alloc; Progress::untouched(); units as usize]?;
    Ok(all)
}

/// A law over every list of events that the rules allow, in which no worker assigns again after
/// its `Finished`: no unit is assigned more than `retries + 2` times, the list has at most
/// `2 * units * (retries + 3) + workers` entries, each answered unit has exactly one first answer,
/// and a worker that has had its `Finished` holds nothing. It does no work.
pub fn every_list_is_lawful()
    ensures { EveryListIsLawful }
{}

/// A law over every list of events that the rules allow, after which all units are answered: the
/// first answers have brought just the facts of the units, in whatever order they came. It does no
/// work.
pub fn first_answers_bring_all_facts<F>()
    ensures { FirstAnswersBringAllFacts F }
{}
