//! What comes next in an expansion.
ghost use Rattle.std.specs.Prelude.{◌≡◌, ◌≤◌, ◌<◌, ◌^◌, ◌∷◌, [], List, length, map, true, codes};
ghost use Rattle.cr_base.specs.declared.token.Name.{Name as TheName};
ghost use Rattle.cr_macros.specs.Tokens.{Text, Token, is_mark as is_mark_text};
ghost use Rattle.cr_macros.specs.Definition.{text_of};
ghost use Rattle.cr_macros.specs.Expansion.{call_of, use_of};
ghost use Rattle.cr_macros.specs.MacroTables.{Macros, macro_named, macro_text, table_of};
ghost use Rattle.cr_expand.specs.declared.held.Held.{Held as TheHeld};
ghost use Rattle.cr_expand.specs.declared.slot.Slot.{Slot as TheSlot};
ghost use Rattle.cr_expand.specs.HideSets.{Sets};
ghost use Rattle.cr_expand.specs.Held.{held, AreTables, IsKnown};
ghost use Rattle.cr_expand.specs.Heading.{AreMacrosKnown};
ghost use Rattle.cr_expand.specs.Slots.{AreSlotsKnown};
ghost use Rattle.cr_expand.specs.Calls.{IsSearched};
ghost use Rattle.cr_expand.specs.Groups.{AreNoted};
ghost use Rattle.cr_expand.specs.Turns.{IsTurn, IsTurnOf, IsNext, IsWanting};

use crate::closing::{Ahead, Close, close_of};
use crate::head::{Head, head_of};
use crate::held::Held;
use crate::hide_sets::HideSets;
use crate::slot::Slot;
use cr_base::{NameTable, Place};
use cr_macros::{Macro, MacroTable, Predefined, is_mark};
use std::collections::VecDeque;

/// What comes next.
pub enum Turn<'a> {
    /// Nothing is left, and no more comes.
    End,
    /// A token that isn't there yet is wanted.
    Hungry,
    /// An argument of a call ends.
    ArgumentEnd,
    /// A token stays.
    Stays(Held),
    /// A predefined macro.
    Predefined(Held, Predefined),
    /// An object-like macro.
    Object(Held, &'a Macro),
    /// A call of a macro with this many parameters, whose `)` is in this slot.
    Call(Held, &'a Macro, usize, usize),
    /// A call without a `)`, at this site.
    Unclosed(Place),
}

// A function-like macro's name before `(`.
fn group_turn<'a>(
    names: &NameTable,
    slots: &VecDeque<Slot>,
    ahead: &mut Ahead,
    finished: bool,
    h: Held,
    m: &'a Macro,
    count: usize,
) -> Turn<'a>
    requires slots { 2 ≤ length slots.now.items }
    requires count { count < 2 ^ 63 }
    requires search { IsSearched names.now slots.now.items ahead.old.search }
    requires noted { AreNoted names.now slots.now.items ahead.old.groups.items }
    ensures search { IsSearched names.now slots.now.items ahead.new.search }
    ensures noted { AreNoted names.now slots.now.items ahead.new.groups.items }
    ensures wanting { (sets : Sets) (opens : TheHeld) (rest : List TheSlot) (params : List TheName) → slots.now.items ≡ Slot.Token h ∷ Slot.Token opens ∷ rest → is_mark_text (codes "(") (held names.now sets opens) ≡ true → IsWanting names.now sets finished slots.now.items (λ x. call_of (held names.now sets x) (macro_text names.now m.now) (map (text_of names.now) params)) result }
    ensures means { (sets : Sets) (file : Text) (opens : TheHeld) (rest : List TheSlot) (params : List TheName) (more : List Token) → slots.now.items ≡ Slot.Token h ∷ Slot.Token opens ∷ rest → is_mark_text (codes "(") (held names.now sets opens) ≡ true → m.now.params ≡ Some params → count ≡ length params → (finished ≡ true → more ≡ []) → IsTurn names.now sets file slots.now.items more (call_of (held names.now sets h) (macro_text names.now m.now) (map (text_of names.now) params)) result }
    ensures head { (macros : Macros) → macro_named h.token.text macros ≡ Some m.now → IsTurnOf macros h result }
{
    match close_of(names, slots, ahead) {
        Close::At(close) => Turn::Call(h, m, count, close),
        Close::Missing => Turn::Unclosed(h.token.site),
        Close::NotYet => {
            if finished {
                Turn::Unclosed(h.token.site)
            } else {
                Turn::Hungry
            }
        }
    }
}

// A function-like macro's name.
fn call_turn<'a>(
    names: &NameTable,
    slots: &VecDeque<Slot>,
    ahead: &mut Ahead,
    finished: bool,
    h: Held,
    m: &'a Macro,
    count: usize,
) -> Turn<'a>
    requires count { count < 2 ^ 63 }
    requires search { IsSearched names.now slots.now.items ahead.old.search }
    requires noted { AreNoted names.now slots.now.items ahead.old.groups.items }
    ensures search { IsSearched names.now slots.now.items ahead.new.search }
    ensures noted { AreNoted names.now slots.now.items ahead.new.groups.items }
    ensures wanting { (sets : Sets) (rest : List TheSlot) (params : List TheName) → slots.now.items ≡ Slot.Token h ∷ rest → IsWanting names.now sets finished slots.now.items (λ x. call_of (held names.now sets x) (macro_text names.now m.now) (map (text_of names.now) params)) result }
    ensures means { (sets : Sets) (file : Text) (rest : List TheSlot) (params : List TheName) (more : List Token) → slots.now.items ≡ Slot.Token h ∷ rest → m.now.params ≡ Some params → count ≡ length params → (finished ≡ true → more ≡ []) → IsTurn names.now sets file slots.now.items more (call_of (held names.now sets h) (macro_text names.now m.now) (map (text_of names.now) params)) result }
    ensures head { (macros : Macros) → macro_named h.token.text macros ≡ Some m.now → IsTurnOf macros h result }
{
    match slots.get(1) {
        None => {
            if finished {
                Turn::Stays(h)
            } else {
                Turn::Hungry
            }
        }
        Some(Slot::End) => Turn::Stays(h),
        Some(Slot::Token(next)) => {
            if is_mark(names, b"(", next.token) {
                group_turn(names, slots, ahead, finished, h, m, count)
            } else {
                Turn::Stays(h)
            }
        }
    }
}

// A token at the head.
fn token_turn<'a>(
    names: &NameTable,
    macros: &'a MacroTable,
    sets: &HideSets,
    slots: &VecDeque<Slot>,
    ahead: &mut Ahead,
    finished: bool,
    h: Held,
) -> Turn<'a>
    requires tables { AreTables names.now sets.now }
    requires macros { AreMacrosKnown names.now macros.now }
    requires token { IsKnown names.now sets.now h }
    requires search { IsSearched names.now slots.now.items ahead.old.search }
    requires noted { AreNoted names.now slots.now.items ahead.old.groups.items }
    ensures search { IsSearched names.now slots.now.items ahead.new.search }
    ensures noted { AreNoted names.now slots.now.items ahead.new.groups.items }
    ensures wanting { (file : Text) (rest : List TheSlot) → slots.now.items ≡ Slot.Token h ∷ rest → IsWanting names.now sets.now finished slots.now.items (λ x. use_of (table_of names.now macros.now file) (held names.now sets.now x)) result }
    ensures means { (file : Text) (rest : List TheSlot) (more : List Token) → slots.now.items ≡ Slot.Token h ∷ rest → (finished ≡ true → more ≡ []) → IsTurn names.now sets.now file slots.now.items more (use_of (table_of names.now macros.now file) (held names.now sets.now h)) result }
    ensures head { IsTurnOf macros.now h result }
{
    match head_of(names, macros, sets, h) {
        Head::Stays => Turn::Stays(h),
        Head::Predefined(p) => Turn::Predefined(h, p),
        Head::Named(m) => match &m.params {
            None => Turn::Object(h, m),
            Some(params) => call_turn(names, slots, ahead, finished, h, m, params.items().len()),
        },
    }
}

/// What comes next: it depends on the head, on what is behind it up to the first end, and on
/// whether more may come.
pub fn turn_of<'a>(
    names: &NameTable,
    macros: &'a MacroTable,
    sets: &HideSets,
    slots: &VecDeque<Slot>,
    ahead: &mut Ahead,
    finished: bool,
) -> Turn<'a>
    requires tables { AreTables names.now sets.now }
    requires macros { AreMacrosKnown names.now macros.now }
    requires slots { AreSlotsKnown names.now sets.now slots.now.items }
    requires search { IsSearched names.now slots.now.items ahead.old.search }
    requires noted { AreNoted names.now slots.now.items ahead.old.groups.items }
    ensures search { IsSearched names.now slots.now.items ahead.new.search }
    ensures noted { AreNoted names.now slots.now.items ahead.new.groups.items }
    ensures wanting { (file : Text) → IsWanting names.now sets.now finished slots.now.items (λ x. use_of (table_of names.now macros.now file) (held names.now sets.now x)) result }
    ensures means { (file : Text) (more : List Token) → (finished ≡ true → more ≡ []) → IsNext names.now sets.now macros.now file slots.now.items more result }
{
    match slots.front() {
        None => { if finished { Turn::End } else { Turn::Hungry } }
        Some(Slot::End) => Turn::ArgumentEnd,
        Some(Slot::Token(h)) => token_turn(names, macros, sets, slots, ahead, finished, *h),
    }
}
