//! The uses of the rules of macro expansion, one after another.
ghost use Rattle.std.specs.Prelude.{◌≡◌, ◌<◌, ◌≤◌, ◌+◌, ◌-◌, ◌^◌, ◌++◌, ◌∷◌, [], List, IfOk, IfErr, IfSome, OnOk, length, map, drop, ◌⊎◌, MatchResult, if◌then◌else◌, true, None, Some, Ok, Err};
ghost use Rattle.std.specs.List.{All};
ghost use Rattle.cr_macros.specs.Tokens.{Text, Token, with_name};
ghost use Rattle.cr_macros.specs.MacroTables.{macro_text};
ghost use Rattle.cr_expand.specs.Held.{held, hidden, all_args, IsKnown, AreKnown, IsNamed, AreTables, Faults};
ghost use Rattle.cr_expand.specs.Items.{IsMacroKnown};
ghost use Rattle.cr_expand.specs.Running.{put_for};
ghost use Rattle.cr_base.specs.NameTable.{IsDistinct};
ghost use Rattle.cr_base.specs.declared.token.Name.{Name as TheName};
ghost use Rattle.cr_macros.specs.Definition.{text_of};
ghost use Rattle.cr_macros.specs.Expansion.{predefined_token as spec_predefined_token, arguments};
ghost use Rattle.cr_expand.specs.declared.held.Held.{Held as TheHeld};
ghost use Rattle.cr_expand.specs.declared.slot.Slot.{Slot as TheSlot};
ghost use Rattle.cr_expand.specs.Held.{all_held};
ghost use Rattle.cr_expand.specs.Slots.{tokens, AreSlotsKnown};
ghost use Rattle.cr_expand.specs.Calls.{IsCallAt, IsSearched};
ghost use Rattle.cr_expand.specs.Groups.{AreNoted, Leaves};
ghost use Rattle.cr_expand.specs.HideSets.{Grows};
ghost use Rattle.cr_expand.specs.Wanted.{is_marked_whole};
ghost use Rattle.cr_expand.specs.Machines.{IsGiven, IsPut, IsSameRun, IsSameElsewhere, IsPredefinedUse, IsClosedAt, IsEntered, IsCallHeld, IsMachine, IsArgumentEnd, IsArgumentFault, BeginsWithEnd, AreMacros, put_for_call, AreTaken, IsMiscounted, IsTurnStep, IsTurnWanted, IsStep, IsAhead, BothFault, IsWantedAt, WantsMore, IsOutKnown};

use crate::closing::{Ahead, Search};
use crate::frame::Frame;
use crate::held::Held;
use crate::hide_sets::{HideSet, HideSets};
use crate::hiding::{hidden_by_call, with_one};
use crate::notes::Notes;
use crate::parting::{part, token_at};
use crate::predefined::predefined_token;
use crate::slot::{Slot, begin, put_front};
use crate::subst::subst;
use crate::turn::{Turn, turn_of};
use crate::wanted::{Needs, counted, needs_of};
use cr_base::{Name, NameTable, PpTok, Role};
use cr_macros::{ExpandFault, Macro, MacroTable, Predefined, expansion_follows_the_rules};
use std::alloc::Global;
use std::collections::VecDeque;

/// How much macro work a translation unit may use.
pub const LIMIT: u32 = 4_194_304;

/// What a step of expansion gives.
#[derive(Clone, Copy, Debug, PartialEq, Eq)]
pub enum ExpStep {
    /// The next token of the result.
    Out(PpTok),
    /// A rule was used, and gave no token of the result.
    More,
    /// A token that wasn't fed is needed.
    Hungry,
    /// All tokens of the result were given.
    End,
}

/// The slots that are left, the calls that wait, the outermost first, and what was used and noted
/// so far.
#[derive(Drop)]
pub struct Machine {
    pub alloc: Global,
    pub file: Name,
    pub slots: VecDeque<Slot>,
    pub frames: Vec<Frame>,
    pub sets: HideSets,
    pub notes: Notes,
    pub used: u32,
    pub finished: bool,
}

// The work that is used after a use of this cost.
fn pay(used: u32, cost: usize) -> Result<u32, ExpandFault>
    requires { used ≤ LIMIT }
    ensures { MatchResult result (λ now. (now ≡ used + cost) × (now ≤ LIMIT)) (λ e. (e ≡ ExpandFault.LimitMacros) × (LIMIT < used + cost)) }
{
    if cost > (LIMIT - used) as usize {
        return Err(ExpandFault::LimitMacros);
    }
    Ok(used + cost as u32)
}

// How many commas may part a call's arguments: those of the variable one stay in it.
fn most_commas(variadic: bool, count: usize, close: usize) -> usize
    requires { 2 ≤ close }
    ensures { result ≡ (if variadic then count else close - 2) }
{
    if variadic { count } else { close - 2 }
}

// A token that a rule gives: the innermost call takes it, or else it is one of the result.
fn give(frames: &mut Vec<Frame>, h: Held) -> Result<ExpStep, ExpandFault>
    ensures given { IfOk result (λ s. IsGiven frames.old.items h frames.new.items s) }
    ensures named { (names : List Text) → IsNamed names h.token.text → IfOk result (λ s. IsOutKnown names s) }
    ensures memory { IfErr result (λ e. e ≡ ExpandFault.OutOfMemory) }
{
    match frames.pop() {
        None => Ok(ExpStep::Out(h.token)),
        Some(mut frame) => {
            frame.put(h)?;
            frames.push(frame)?;
            Ok(ExpStep::More)
        }
    }
}

impl Machine {
    // A token stays.
    fn keep(&mut self, h: Held) -> Result<ExpStep, ExpandFault>
        ensures slots { self.new.slots.items ≡ drop 1 self.old.slots.items }
        ensures given { IfOk result (λ s. IsGiven self.old.frames.items h self.new.frames.items s) }
        ensures named { (names : List Text) → IsNamed names h.token.text → IfOk result (λ s. IsOutKnown names s) }
        ensures memory { IfErr result (λ e. e ≡ ExpandFault.OutOfMemory) }
        ensures same { IsSameElsewhere self.old self.new }
    {
        let _ = self.slots.pop_front();
        let step = give(&mut self.frames, h)?;
        Ok(step)
    }

    // The name of a predefined macro.
    fn predefined(
        &mut self,
        names: &mut NameTable,
        h: Held,
        p: Predefined,
    ) -> Result<ExpStep, ExpandFault>
        requires room { length names.old < 2 ^ 32 - 1 }
        requires distinct { IsDistinct names.old }
        requires file { IsNamed names.old self.old.file }
        requires limit { self.old.used ≤ LIMIT }
        ensures slots { OnOk result (self.new.slots.items ≡ drop 1 self.old.slots.items) }
        ensures given { IfOk result (λ s. IsPredefinedUse names.old names.new self.old self.new h (spec_predefined_token (text_of names.old self.old.file) h.token.line p) s) }
        ensures faults { IfErr result (λ e. (e ≡ ExpandFault.OutOfMemory) ⊎ ((e ≡ ExpandFault.LimitMacros) × (LIMIT < self.old.used + 2))) }
        ensures same { OnOk result (IsSameRun self.old self.new × (self.new.sets ≡ self.old.sets)) }
        ensures named { IfOk result (λ s. IsOutKnown names.new s) }
        ensures grows { Grows names.old names.new }
        ensures limit { self.new.used ≤ LIMIT }
        ensures length { length names.new ≤ length names.old + 1 }
    {
        let _ = self.slots.pop_front();
        self.notes.take(names, Role::MacroName, h.token)?;
        let token = predefined_token(names, self.file, h.token, p)?;
        self.used = pay(self.used, 2)?;
        let hide = self.sets.empty();
        let step = give(&mut self.frames, Held { token, hide })?;
        Ok(step)
    }

    // Puts in what stands for a macro's name.
    fn put(
        &mut self,
        names: &mut NameTable,
        name: Held,
        m: &Macro,
        raw: &[Vec<Held>],
        full: &[Vec<Held>],
        hide: HideSet,
    ) -> Result<(), ExpandFault>
        requires room { length names.old + length m.now.body < 2 ^ 32 - 1 }
        requires tables { AreTables names.old self.old.sets }
        requires name { IsKnown names.old self.old.sets name }
        requires watched { IsNamed names.old self.old.notes.from × IsNamed names.old self.old.notes.to }
        requires known { IsMacroKnown names.old m.now }
        requires raw { All (AreKnown names.old self.old.sets) (map (λ v. v.items) raw.now) }
        requires full { All (AreKnown names.old self.old.sets) (map (λ v. v.items) full.now) }
        requires hide { hide.0 < length self.old.sets }
        requires limit { self.old.used ≤ LIMIT }
        ensures put { OnOk result (IsPut names.old names.new self.old self.new (put_for (held names.old self.old.sets name) (macro_text names.old m.now) (all_args names.old self.old.sets (map (λ v. v.items) raw.now)) (all_args names.old self.old.sets (map (λ v. v.items) full.now)) (hidden names.old self.old.sets hide.0)) self.old.slots.items) }
        ensures faults { IfErr result (λ e. Faults (put_for (held names.old self.old.sets name) (macro_text names.old m.now) (all_args names.old self.old.sets (map (λ v. v.items) raw.now)) (all_args names.old self.old.sets (map (λ v. v.items) full.now)) (hidden names.old self.old.sets hide.0) (LIMIT - self.old.used)) e) }
        ensures same { OnOk result (IsSameRun self.old self.new × (self.new.frames.items ≡ self.old.frames.items)) }
        ensures grows { Grows names.old names.new }
        ensures limit { self.new.used ≤ LIMIT }
        ensures length { length names.new ≤ length names.old + length m.now.body }
    {
        let list = subst(
            self.alloc,
            names,
            &mut self.sets,
            &mut self.notes,
            name.token,
            m,
            raw,
            full,
            hide,
        )?;
        self.used = pay(self.used, 1 + list.len())?;
        put_front(&mut self.slots, &list)?;
        Ok(())
    }

    // The name of an object-like macro.
    fn object(&mut self, names: &mut NameTable, h: Held, m: &Macro) -> Result<ExpStep, ExpandFault>
        requires room { length names.old + length m.now.body < 2 ^ 32 - 1 }
        requires tables { AreTables names.old self.old.sets }
        requires name { IsKnown names.old self.old.sets h }
        requires watched { IsNamed names.old self.old.notes.from × IsNamed names.old self.old.notes.to }
        requires known { IsMacroKnown names.old m.now }
        requires limit { self.old.used ≤ LIMIT }
        ensures put { OnOk result (IsPut names.old names.new self.old self.new (put_for (held names.old self.old.sets h) (macro_text names.old m.now) [] [] (with_name (text_of names.old h.token.text) (hidden names.old self.old.sets h.hide.0))) (drop 1 self.old.slots.items)) }
        ensures faults { IfErr result (λ e. Faults (put_for (held names.old self.old.sets h) (macro_text names.old m.now) [] [] (with_name (text_of names.old h.token.text) (hidden names.old self.old.sets h.hide.0)) (LIMIT - self.old.used)) e) }
        ensures same { OnOk result (IsSameRun self.old self.new × (self.new.frames.items ≡ self.old.frames.items)) }
        ensures more { IfOk result (λ s. s ≡ ExpStep.More) }
        ensures grows { Grows names.old names.new }
        ensures limit { self.new.used ≤ LIMIT }
        ensures length { length names.new ≤ length names.old + length m.now.body }
    {
        let _ = self.slots.pop_front();
        let hide = with_one(names, &mut self.sets, h.hide, h.token.text)?;
        self.put(names, h, m, &[], &[], hide)?;
        Ok(ExpStep::More)
    }

    // The arguments of a call, which are parted in place, and how many lists come behind the first.
    fn take_arguments(
        &mut self,
        names: &NameTable,
        groups: &VecDeque<usize>,
        h: Held,
        m: &Macro,
        count: usize,
        close: usize,
        needs: &Needs,
    ) -> Result<(Vec<Vec<Held>>, usize), ExpandFault>
        requires call { IsCallAt self.old.slots.items close }
        requires noted { AreNoted names.now self.old.slots.items groups.now.items }
        ensures taken { (a b end : TheSlot) (inside : List TheHeld) (rest : List TheSlot) (params : List TheName) → self.old.slots.items ≡ a ∷ b ∷ (tokens inside ++ end ∷ rest) → close ≡ 2 + length inside → m.now.params ≡ Some params → count ≡ length params → IfOk result (λ r. AreTaken names.now self.new.slots.items m.now params a b inside rest (is_marked_whole needs.now) (map (λ v. v.items) r.0.items) r.1) }
        ensures faults { (a b end : TheSlot) (inside : List TheHeld) (rest : List TheSlot) (params : List TheName) → self.old.slots.items ≡ a ∷ b ∷ (tokens inside ++ end ∷ rest) → close ≡ 2 + length inside → m.now.params ≡ Some params → count ≡ length params → IfErr result (λ e. IsMiscounted names.now m.now params inside h e) }
        ensures small { IfOk result (λ r. r.1 < 2 ^ 63) }
        ensures same { IsSameElsewhere self.old self.new × (self.new.frames.items ≡ self.old.frames.items) }
    {
        let commas = most_commas(m.variadic, count, close);
        let lists = part(
            self.alloc,
            names,
            &mut self.slots,
            groups,
            close,
            commas,
            needs,
        )?;
        let more = lists.len() - 1;
        match counted(self.alloc, count, m.variadic, lists)? {
            None => Err(ExpandFault::ArgCount(h.token.site)),
            Some(raw) => Ok((raw, more)),
        }
    }

    // A call is entered: its arguments are parted, and the first of them is begun.
    fn enter(
        &mut self,
        names: &NameTable,
        groups: &VecDeque<usize>,
        h: Held,
        m: &Macro,
        count: usize,
        close: usize,
    ) -> Result<(), ExpandFault>
        requires call { IsClosedAt self.old.slots.items close }
        requires noted { AreNoted names.now self.old.slots.items groups.now.items }
        requires count { count < 2 ^ 63 }
        requires tables { AreTables names.now self.old.sets }
        requires slots { AreSlotsKnown names.now self.old.sets self.old.slots.items }
        requires name { IsKnown names.now self.old.sets h }
        requires known { IsMacroKnown names.now m.now }
        ensures entered { (a b : TheSlot) (inside : List TheHeld) (closes : TheHeld) (rest : List TheSlot) (params : List TheName) → self.old.slots.items ≡ a ∷ b ∷ (tokens inside ++ Slot.Token closes ∷ rest) → close ≡ 2 + length inside → m.now.params ≡ Some params → count ≡ length params → OnOk result (IsEntered names.now self.old self.new h m.now params inside closes rest) }
        ensures faults { (a b : TheSlot) (inside : List TheHeld) (closes : TheHeld) (rest : List TheSlot) (params : List TheName) → self.old.slots.items ≡ a ∷ b ∷ (tokens inside ++ Slot.Token closes ∷ rest) → close ≡ 2 + length inside → m.now.params ≡ Some params → count ≡ length params → IfErr result (λ e. IsMiscounted names.now m.now params inside h e) }
        ensures same { OnOk result (IsSameRun self.old self.new × (self.new.notes.seen.items ≡ self.old.notes.seen.items) × (self.new.used ≡ self.old.used)) }
        ensures used { self.new.used ≡ self.old.used }
    {
        let end = token_at(&self.slots, close);
        let needs = needs_of(self.alloc, names, m, count + 1)?;
        let (raw, more) = self.take_arguments(names, groups, h, m, count, close, &needs)?;
        let sets = &mut self.sets;
        let hide = hidden_by_call(self.alloc, names, sets, h.hide, end.hide, h.token.text)?;
        let Needs { expanded, .. } = needs;
        let frame = Frame::new(self.alloc, h, hide, raw, more, expanded);
        let _ = self.slots.pop_front();
        let _ = self.slots.pop_front();
        begin(&mut self.slots, frame.is_wanted());
        self.frames.push(frame)?;
        Ok(())
    }

    // All arguments of a call are expanded.
    fn complete(
        &mut self,
        names: &mut NameTable,
        macros: &MacroTable,
        frame: &Frame,
    ) -> Result<(), ExpandFault>
        requires room { length names.old < 2 ^ 31 }
        requires macros { AreMacros names.old macros.now }
        requires tables { AreTables names.old self.old.sets }
        requires call { IsCallHeld names.old macros.now self.old.sets frame.now }
        requires watched { IsNamed names.old self.old.notes.from × IsNamed names.old self.old.notes.to }
        requires limit { self.old.used ≤ LIMIT }
        ensures put { OnOk result (IsPut names.old names.new self.old self.new (put_for_call names.old macros.now self.old.sets frame.now) self.old.slots.items) }
        ensures faults { IfErr result (λ e. Faults (put_for_call names.old macros.now self.old.sets frame.now (LIMIT - self.old.used)) e) }
        ensures same { OnOk result (IsSameRun self.old self.new × (self.new.frames.items ≡ self.old.frames.items)) }
        ensures grows { Grows names.old names.new }
        ensures limit { self.new.used ≤ LIMIT }
        ensures length { length names.new ≤ length names.old + 2 ^ 25 }
    {
        match macros.lookup(frame.name().token.text) {
            None => unreachable!(),
            Some(m) => {
                self.put(
                    names,
                    frame.name(),
                    m,
                    frame.raw(),
                    frame.done(),
                    frame.hide(),
                )?;
                Ok(())
            }
        }
    }

    // An argument ends: the next one is begun, or the call's macro is put in.
    fn end_argument(
        &mut self,
        names: &mut NameTable,
        macros: &MacroTable,
    ) -> Result<Option<ExpStep>, ExpandFault>
        requires room { length names.old < 2 ^ 31 }
        requires macros { AreMacros names.old macros.now }
        requires machine { IsMachine names.old macros.now self.old }
        requires starts { BeginsWithEnd self.old.slots.items }
        ensures ended { (rest : List TheSlot) → self.old.slots.items ≡ Slot.End ∷ rest → IfOk result (λ o. IsArgumentEnd names.old names.new macros.now self.old self.new rest o) }
        ensures faults { IfErr result (λ e. IsArgumentFault names.old macros.now self.old e) }
        ensures same { OnOk result (IsSameRun self.old self.new) }
        ensures named { IfOk result (λ o. IfSome o (λ s. IsOutKnown names.new s)) }
        ensures grows { Grows names.old names.new }
        ensures limit { self.new.used ≤ LIMIT }
        ensures length { length names.new ≤ length names.old + 2 ^ 25 }
    {
        let _ = self.slots.pop_front();
        let Some(mut frame) = self.frames.pop() else {
            unreachable!()
        };
        frame.finish_argument(self.alloc)?;
        if !frame.has_more() {
            self.complete(names, macros, &frame)?;
            return Ok(Some(ExpStep::More));
        }
        frame.begin_next();
        begin(&mut self.slots, frame.is_wanted());
        self.frames.push(frame)?;
        Ok(None)
    }

    // The next use of a rule; none where a call was entered or an argument ended.
    fn turn(
        &mut self,
        names: &mut NameTable,
        macros: &MacroTable,
        ahead: &mut Ahead,
    ) -> Result<Option<ExpStep>, ExpandFault>
        requires room { length names.old < 2 ^ 31 }
        requires macros { AreMacros names.old macros.now }
        requires machine { IsMachine names.old macros.now self.old }
        requires search { IsSearched names.old self.old.slots.items ahead.old.search }
        requires noted { AreNoted names.old self.old.slots.items ahead.old.groups.items }
        ensures step { (more : List Token) → (self.old.finished ≡ true → more ≡ []) → IfOk result (λ o. IsTurnStep names.old names.new macros.now self.old self.new more o) }
        ensures wanted { IfOk result (λ o. IsTurnWanted names.old names.new macros.now self.old self.new o) }
        ensures wants { WantsMore names.old macros.now self.old → result ≡ Ok (Some ExpStep.Hungry) }
        ensures faults { (more : List Token) → (self.old.finished ≡ true → more ≡ []) → IfErr result (λ e. BothFault names.old macros.now self.old more e) }
        ensures machine { OnOk result (IsMachine names.new macros.now self.new) }
        ensures search { OnOk result (IsSearched names.new self.new.slots.items ahead.new.search) }
        ensures noted { OnOk result (AreNoted names.old self.old.slots.items ahead.new.groups.items) }
        ensures leaves { OnOk result (Leaves names.old names.new self.old.slots.items self.new.slots.items) }
        ensures named { IfOk result (λ o. IfSome o (λ s. IsOutKnown names.new s)) }
        ensures grows { Grows names.old names.new }
        ensures same { OnOk result (IsSameRun self.old self.new) }
        ensures smaller { IfOk result (λ o. o ≡ None → length self.new.slots.items < length self.old.slots.items) }
        ensures limit { self.new.used ≤ LIMIT }
        ensures length { length names.new ≤ length names.old + 2 ^ 25 }
    {
        expansion_follows_the_rules();
        let turn = turn_of(names, macros, &self.sets, &self.slots, ahead, self.finished);
        match turn {
            Turn::End => Ok(Some(ExpStep::End)),
            Turn::Hungry => Ok(Some(ExpStep::Hungry)),
            Turn::Unclosed(site) => Err(ExpandFault::OpenCall(site)),
            Turn::ArgumentEnd => {
                ahead.search = Search::new();
                let step = self.end_argument(names, macros)?;
                Ok(step)
            }
            Turn::Stays(h) => {
                ahead.search = Search::new();
                let step = self.keep(h)?;
                Ok(Some(step))
            }
            Turn::Predefined(h, p) => {
                ahead.search = Search::new();
                let step = self.predefined(names, h, p)?;
                Ok(Some(step))
            }
            Turn::Object(h, m) => {
                ahead.search = Search::new();
                let step = self.object(names, h, m)?;
                Ok(Some(step))
            }
            Turn::Call(h, m, count, close) => {
                ahead.search = Search::new();
                self.enter(names, &ahead.groups, h, m, count, close)?;
                Ok(None)
            }
        }
    }

    /// The next use of a rule, or why there is none.
    pub fn next(
        &mut self,
        names: &mut NameTable,
        macros: &MacroTable,
        ahead: &mut Ahead,
    ) -> Result<ExpStep, ExpandFault>
        requires room { length names.old < 2 ^ 31 }
        requires macros { AreMacros names.old macros.now }
        requires machine { IsMachine names.old macros.now self.old }
        requires search { IsSearched names.old self.old.slots.items ahead.old.search }
        requires noted { AreNoted names.old self.old.slots.items ahead.old.groups.items }
        ensures step { (more : List Token) → (self.old.finished ≡ true → more ≡ []) → IfOk result (λ s. IsStep names.old names.new macros.now self.old self.new more s) }
        ensures ahead { (more : List Token) → (self.old.finished ≡ true → more ≡ []) → IfOk result (λ s. IsAhead names.old names.new macros.now self.old self.new more s) }
        ensures wanted { IfOk result (λ s. IsWantedAt names.old macros.now self.old s) }
        ensures wants { WantsMore names.old macros.now self.old → (result ≡ Ok ExpStep.Hungry) ⊎ (result ≡ Err ExpandFault.OutOfMemory) }
        ensures faults { (more : List Token) → (self.old.finished ≡ true → more ≡ []) → IfErr result (λ e. BothFault names.old macros.now self.old more e) }
        ensures machine { OnOk result (IsMachine names.new macros.now self.new) }
        ensures search { OnOk result (IsSearched names.new self.new.slots.items ahead.new.search) }
        ensures noted { OnOk result (AreNoted names.new self.new.slots.items ahead.new.groups.items) }
        ensures named { IfOk result (λ s. IsOutKnown names.new s) }
        ensures grows { Grows names.old names.new }
        ensures same { OnOk result (IsSameRun self.old self.new) }
        ensures limit { self.new.used ≤ LIMIT }
        ensures length { length names.new ≤ length names.old + 2 ^ 25 }
    {
        loop {
            let before = self.slots.len();
            let step = self.turn(names, macros, ahead)?;
            ahead.go_on(before, self.slots.len())?;
            if let Some(step) = step {
                return Ok(step);
            }
        }
    }
}
