//! What is put in for a macro's name (C11 6.10.3.1 to 6.10.3.3).
ghost use Rattle.std.specs.Prelude.{◌≡◌, ◌+◌, ◌-◌, ◌<◌, ◌≤◌, ◌^◌, ◌++◌, ◌∷◌, [], IfOk, IfErr, OnOk, length, List, map, Bool, ℕ, false, ◌||◌, if◌then◌else◌, flat_map, slice_index_or, vec_len};
ghost use Rattle.std.specs.List.{list_any, All};
ghost use Rattle.cr_expand.specs.declared.items.Item.{Item as TheItem};
ghost use Rattle.cr_macros.specs.Substitution as spec;
ghost use Rattle.cr_macros.specs.Tokens.{Text, token_of, takes};
ghost use Rattle.cr_expand.specs.HideSets.{Sets, Grows};
ghost use Rattle.cr_expand.specs.Held.{noted, watch_of, all_args, all_held, hidden, AreKnown, AreTables, IsNamed, Does, Stops};
ghost use Rattle.cr_macros.specs.MacroTables.{macro_text};
ghost use Rattle.cr_base.specs.declared.cause.Role.TheVariants.{Dropped, MacroName};
ghost use Rattle.cr_base.specs.NameTable.{IsDistinct};
ghost use Rattle.cr_expand.specs.Parts.{IsItemNamed};
ghost use Rattle.cr_expand.specs.Items.{item_text, item_texts, is_number, IsTokenNamed, IsMacroKnown};

use crate::fill::fill;
use crate::held::Held;
use crate::hide_sets::{HideSet, HideSets};
use crate::items::{Item, items};
use crate::notes::Notes;
use crate::params::Params;
use crate::pasting::paste_all;
use crate::place::place;
use cr_base::{NameTable, OutOfMemory, PpTok, Role};
use cr_macros::{ExpandFault, Macro};
use std::alloc::Global;

// The number of the argument that an item uses.
fn argument_of(item: Item) -> Option<usize>
    ensures { (names : List Text) (n : ℕ) → spec.is_use n (item_text names item) ≡ is_number n result }
{
    match item {
        Item::Spelt(_, n) | Item::Bare(_, n) | Item::Full(_, n) => Some(n),
        Item::CommaRest(_, _, n) => Some(n),
        Item::Stays(_) | Item::Paste => None,
    }
}

/// Marks the argument of this number.
pub fn mark(used: &mut Vec<bool>, number: Option<usize>)
    ensures length { vec_len used.new ≡ vec_len used.old }
    ensures marked { (n : ℕ) → n < vec_len used.old → slice_index_or used.new.items n false ≡ (is_number n number || slice_index_or used.old.items n false) }
{
    if let Some(n) = number {
        if n < used.len() {
            used[n] = true;
        }
    }
}

/// So many marks, none of them set.
pub fn unmarked(alloc: Global, count: usize) -> Result<Vec<bool>, OutOfMemory>
    ensures { IfOk result (λ used. (vec_len used ≡ count) × ((n : ℕ) → slice_index_or used.items n false ≡ false)) }
{
    let mut used = Vec::new(alloc);
    for _i in 0..count {
        used.push(false)?;
    }
    Ok(used)
}

/// Which arguments have an item that uses them.
pub fn used_arguments(alloc: Global, count: usize, items: &[Item]) -> Result<Vec<bool>, OutOfMemory>
    ensures { (names : List Text) → IfOk result (λ used. (vec_len used ≡ count) × ((n : ℕ) → n < count → slice_index_or used.items n false ≡ list_any (spec.is_use n) (item_texts names items.now))) }
{
    let mut used = unmarked(alloc, count)?;
    for i in 0..items.len() {
        mark(&mut used, argument_of(items[i]));
    }
    Ok(used)
}

// Notes an argument where no copy of it is used.
fn note_one(
    names: &NameTable,
    notes: &mut Notes,
    used: bool,
    arg: &[Held],
) -> Result<(), OutOfMemory>
    ensures seen { (sets : Sets) → OnOk result (notes.new.seen.items ≡ notes.old.seen.items ++ noted (watch_of names.now notes.old) (if used then [] else flat_map (takes Dropped) (all_held names.now sets arg.now))) }
    ensures same { (notes.new.from ≡ notes.old.from) × (notes.new.to ≡ notes.old.to) }
{
    if used {
        return Ok(());
    }
    notes.take_all(names, Role::Dropped, arg)?;
    Ok(())
}

// Notes the arguments of which no copy is used.
fn note_dropped(
    names: &NameTable,
    notes: &mut Notes,
    used: &[bool],
    raw: &[Vec<Held>],
) -> Result<(), OutOfMemory>
    requires { length used.now ≡ length raw.now }
    ensures seen { (sets : Sets) (items : List TheItem) → ((n : ℕ) → n < length raw.now → slice_index_or used.now n false ≡ list_any (spec.is_use n) (item_texts names.now items)) → OnOk result (notes.new.seen.items ≡ notes.old.seen.items ++ noted (watch_of names.now notes.old) (spec.dropped (item_texts names.now items) 0 (all_args names.now sets (map (λ v. v.items) raw.now)))) }
    ensures same { (notes.new.from ≡ notes.old.from) × (notes.new.to ≡ notes.old.to) }
{
    for n in 0..raw.len() {
        note_one(names, notes, used[n], &raw[n])?;
    }
    Ok(())
}

// The items of the macro's body. The name is noted as a macro's, and what is dropped as that.
fn prepared(
    alloc: Global,
    names: &NameTable,
    notes: &mut Notes,
    name: PpTok,
    m: &Macro,
    raw: &[Vec<Held>],
) -> Result<Vec<Item>, OutOfMemory>
    requires distinct { IsDistinct names.now }
    requires known { IsMacroKnown names.now m.now }
    ensures items { IfOk result (λ items. item_texts names.now items.items ≡ spec.body_items (macro_text names.now m.now)) }
    ensures named { IfOk result (λ items. All (IsItemNamed names.now) items.items) }
    ensures count { IfOk result (λ items. length items.items ≤ length m.now.body) }
    ensures seen { (hide : List Text) (sets : Sets) → OnOk result (notes.new.seen.items ≡ notes.old.seen.items ++ noted (watch_of names.now notes.old) (takes MacroName (token_of names.now hide name) ++ spec.dropped (spec.body_items (macro_text names.now m.now)) 0 (all_args names.now sets (map (λ v. v.items) raw.now)))) }
    ensures same { OnOk result ((notes.new.from ≡ notes.old.from) × (notes.new.to ≡ notes.old.to)) }
{
    let params = Params::of_macro(alloc, names, m)?;
    let items = items(alloc, names, m, &params)?;
    let used = used_arguments(alloc, raw.len(), &items)?;
    notes.take(names, Role::MacroName, name)?;
    note_dropped(names, notes, &used, raw)?;
    Ok(items)
}

/// What is put in for a macro's name, with a call's arguments as they are and expanded, and more
/// names hidden (C11 6.10.3.1 to 6.10.3.3). `BadPaste`: a string or a paste is no one token.
pub fn subst(
    alloc: Global,
    names: &mut NameTable,
    sets: &mut HideSets,
    notes: &mut Notes,
    name: PpTok,
    m: &Macro,
    raw: &[Vec<Held>],
    full: &[Vec<Held>],
    hide: HideSet,
) -> Result<Vec<Held>, ExpandFault>
    requires room { length names.old + length m.now.body < 2 ^ 32 - 1 }
    requires tables { AreTables names.old sets.old }
    requires name { IsTokenNamed names.old name }
    requires watched { IsNamed names.old notes.old.from × IsNamed names.old notes.old.to }
    requires known { IsMacroKnown names.old m.now }
    requires raw { All (AreKnown names.old sets.old) (map (λ v. v.items) raw.now) }
    requires full { All (AreKnown names.old sets.old) (map (λ v. v.items) full.now) }
    requires hide { hide.0 < length sets.old }
    ensures does { (hidden_from_name : List Text) → IfOk result (λ out. Does (watch_of names.old notes.old) notes.old.seen.items notes.new.seen.items (spec.subst (token_of names.old hidden_from_name name) (macro_text names.old m.now) (all_args names.old sets.old (map (λ v. v.items) raw.now)) (all_args names.old sets.old (map (λ v. v.items) full.now)) (hidden names.old sets.old hide.0)) (all_held names.new sets.new out.items)) }
    ensures stops { (hidden_from_name : List Text) → IfErr result (λ e. Stops (spec.subst (token_of names.old hidden_from_name name) (macro_text names.old m.now) (all_args names.old sets.old (map (λ v. v.items) raw.now)) (all_args names.old sets.old (map (λ v. v.items) full.now)) (hidden names.old sets.old hide.0)) e) }
    ensures known { IfOk result (λ out. AreKnown names.new sets.new out.items) }
    ensures grows { Grows names.old names.new }
    ensures sets_grow { OnOk result (Grows sets.old sets.new) }
    ensures tables { OnOk result (AreTables names.new sets.new) }
    ensures length { length names.new ≤ length names.old + length m.now.body }
    ensures same { OnOk result ((notes.new.from ≡ notes.old.from) × (notes.new.to ≡ notes.old.to)) }
{
    let items = prepared(alloc, names, notes, name, m, raw)?;
    let parts = fill(alloc, names, sets, notes, name, raw, full, &items)?;
    let pasted = paste_all(alloc, names, sets, notes, name, &parts)?;
    let placed = place(alloc, names, sets, name, hide, &pasted)?;
    Ok(placed)
}
