//! The machine of macro expansion, which is fed and stepped.
ghost use Rattle.std.specs.Prelude.{◌≡◌, ◌<◌, ◌≤◌, ◌^◌, ◌+◌, ◌++◌, [], List, OnOk, OnErr, IfOk, IfErr, Some, None, Ok, Err, ◌⊎◌, length, replicate, map, true, false};
ghost use Rattle.cr_macros.specs.declared.fault.ExpandFault.{ExpandFault as TheFault};
ghost use Rattle.cr_macros.specs.Tokens.{Text, Token};
ghost use Rattle.cr_macros.specs.MacroTables.{Macros};
ghost use Rattle.cr_expand.specs.HideSets.{Grows};
ghost use Rattle.cr_expand.specs.Ahead.{NextFollowsTheRules};
ghost use Rattle.cr_expand.specs.Feeding.{IsPutBack};
ghost use Rattle.cr_expand.specs.Machines.{AreMacros, IsStep, IsAhead, FaultsAtOnce, IsWantedAt, WantsMore, IsOutKnown, IsSameRun, ahead};
ghost use Rattle.cr_expand.specs.Expanders.{left_over, IsRunning, IsFresh, IsFed, Steps, RunsOn, GivesTheExpansion};

use crate::closing::Ahead;
use crate::held::Held;
use crate::hide_sets::HideSets;
use crate::machine::{ExpStep, LIMIT, Machine};
use crate::notes::Notes;
use crate::slot::Slot;
use cr_base::{Name, NameTable, OutOfMemory, PpTok};
use cr_macros::{ExpandFault, MacroTable, Seen};
use std::alloc::Global;
use std::collections::VecDeque;

/// A machine that expands one list of preprocessing tokens, which is fed in pieces (C11 6.10.3,
/// with hide sets).
#[derive(Drop)]
pub struct Expander {
    machine: Machine,
    ahead: Ahead,
    fault: Option<ExpandFault>,
}

// Puts tokens behind the slots, of which no groups are known.
fn put_back(
    slots: &mut VecDeque<Slot>,
    groups: &mut VecDeque<usize>,
    hides: &HideSets,
    tokens: &[PpTok],
) -> Result<(), OutOfMemory>
    ensures slots { OnOk result (IsPutBack hides.now slots.old.items slots.new.items tokens.now) }
    ensures groups { OnOk result (groups.new.items ≡ groups.old.items ++ replicate (length tokens.now) 0) }
{
    let hide = hides.empty();
    for i in 0..tokens.len() {
        let token = tokens[i];
        slots.push_back(Slot::Token(Held { token, hide }))?;
        groups.push_back(0)?;
    }
    Ok(())
}

impl Expander {
    /// A machine that was fed nothing. It notes the roles of the places of identifiers spelled
    /// `old` or `new`; `file` is the text of the token that `__FILE__` gives, and `work`, at most
    /// 4,194,304, the macro work that was used before.
    pub fn new(alloc: Global, old: Name, new: Name, file: Name, work: u32) -> Expander
        requires { work ≤ LIMIT }
        ensures { IsFresh old new file work result }
    {
        Expander {
            machine: Machine {
                alloc,
                file,
                slots: VecDeque::new(alloc),
                frames: Vec::new(alloc),
                sets: HideSets::new(alloc),
                notes: Notes {
                    from: old,
                    to: new,
                    seen: Vec::new(alloc),
                },
                used: work,
                finished: false,
            },
            ahead: Ahead::new(alloc),
            fault: None,
        }
    }

    /// Feeds more tokens of the list.
    ///
    /// After want of memory it is what each step answers.
    pub fn feed(&mut self, tokens: &[PpTok]) -> Result<(), OutOfMemory>
        requires { self.old.machine.finished ≡ false }
        ensures fed { OnOk result (IsFed self.old self.new tokens.now) }
        ensures memory { OnErr result (self.new.fault ≡ Some ExpandFault.OutOfMemory) }
    {
        match put_back(
            &mut self.machine.slots,
            &mut self.ahead.groups,
            &self.machine.sets,
            tokens,
        ) {
            Ok(()) => Ok(()),
            Err(e) => {
                self.fault = Some(ExpandFault::OutOfMemory);
                Err(e)
            }
        }
    }

    /// The next use of a rule of expansion, from left to right, those inside a call's arguments
    /// before the call's own.
    ///
    /// It answers `Out` exactly where that gives a token of the result, and `More` where it gives
    /// none; `Hungry` where it needs a token that wasn't fed, and `finish` wasn't called; `End` where
    /// all is given after `finish`. So the steps up to an `Out` are the uses of rules up to the next
    /// token of the result, and what is left behind that token is a list that is expanded from then
    /// on. The macros are those of the steps before. A step adds at most 33,554,432 names, and keeps
    /// those that are there, whatever it answers; a token that it gives has one of the names.
    /// `ArgCount`, `OpenCall`, `BadPaste` and `LimitMacros` come where the next use of a rule meets
    /// them; after a fault it answers that fault again.
    pub fn step(
        &mut self,
        macros: &MacroTable,
        names: &mut NameTable,
    ) -> Result<ExpStep, ExpandFault>
        requires room { length names.old < 2 ^ 31 }
        requires macros { AreMacros names.old macros.now }
        requires running { IsRunning names.old macros.now self.old }
        ensures step { self.old.fault ≡ None → IfOk result (λ s. Steps names.old names.new macros.now self.old self.new s) }
        ensures wanted { self.old.fault ≡ None → IfOk result (λ s. IsWantedAt names.old macros.now self.old.machine s) }
        ensures wants { self.old.fault ≡ None → WantsMore names.old macros.now self.old.machine → (result ≡ Ok ExpStep.Hungry) ⊎ (result ≡ Err ExpandFault.OutOfMemory) }
        ensures faults { self.old.fault ≡ None → (more : List Token) → (self.old.machine.finished ≡ true → more ≡ []) → IfErr result (λ e. FaultsAtOnce (left_over names.old macros.now self.old more) e) }
        ensures ahead { self.old.fault ≡ None → (more : List Token) → (self.old.machine.finished ≡ true → more ≡ []) → IfOk result (λ s. IsAhead names.old names.new macros.now self.old.machine self.new.machine more s) }
        ensures ahead_faults { self.old.fault ≡ None → (more : List Token) → (self.old.machine.finished ≡ true → more ≡ []) → IfErr result (λ e. FaultsAtOnce (ahead names.old macros.now self.old.machine more) e) }
        ensures kept { IfErr result (λ e. self.new.fault ≡ Some e) }
        ensures stuck { (fault : TheFault) → self.old.fault ≡ Some fault → (result ≡ Err fault) × (self.new ≡ self.old) × (names.new ≡ names.old) }
        ensures running { IsRunning names.new macros.now self.new }
        ensures fault { OnOk result (self.new.fault ≡ None) }
        ensures named { IfOk result (λ s. IsOutKnown names.new s) }
        ensures grows { Grows names.old names.new }
        ensures names { length names.new ≤ length names.old + 2 ^ 25 }
        ensures limit { self.old.machine.used ≤ LIMIT → self.new.machine.used ≤ LIMIT }
    {
        if let Some(fault) = self.fault {
            return Err(fault);
        }
        match self.machine.next(names, macros, &mut self.ahead) {
            Ok(step) => Ok(step),
            Err(fault) => {
                self.fault = Some(fault);
                Err(fault)
            }
        }
    }

    /// Says that no more is fed.
    pub fn finish(&mut self)
        ensures running { (names : List Text) (macros : Macros) → IsRunning names macros self.old → IsRunning names macros self.new }
        ensures finished { self.new ≡ record self.old { machine = record self.old.machine { finished = true } } }
    {
        self.machine.finished = true;
    }

    /// The roles of the places so far.
    pub fn seen(&self) -> &[Seen]
        ensures { result.now ≡ self.now.machine.notes.seen.items }
    {
        &self.machine.notes.seen
    }

    /// The macro work used so far, with that before: at most 4,194,304.
    pub fn work(&self) -> u32
        ensures { result ≡ self.now.machine.used }
    {
        self.machine.used
    }
}

/// The law that a machine gives the expansion of a list however that was cut into pieces and fed
/// (C11 6.10.3): run to its end, it has given out the tokens of the definition, noted their roles
/// and used their macro work. It does no work.
pub fn expansion_is_however_it_is_fed()
    ensures { GivesTheExpansion }
{}

/// The law that the next token of an expansion's result is what the rules of expansion say of it
/// (C11 6.10.3): the uses up to the first that gives a token of the result. It does no work.
pub fn the_next_token_follows_the_rules()
    ensures { NextFollowsTheRules }
{}

/// The law that a machine runs on where names are put into the table between two steps: its
/// condition holds of the grown table, and what is left of the expansion is the same. It does no
/// work.
pub fn machines_run_on_as_names_grow()
    ensures { RunsOn }
{}
