//! The items of a body filled in with a call's arguments.
ghost use Rattle.std.specs.Prelude.{◌≡◌, ◌+◌, ◌-◌, ◌<◌, ◌≤◌, ◌^◌, ◌++◌, [], IfOk, IfErr, OnOk, length, List, map};
ghost use Rattle.std.specs.List.{All};
ghost use Rattle.cr_base.specs.NameTable.{IsDistinct};
ghost use Rattle.cr_macros.specs.Substitution as spec;
ghost use Rattle.cr_macros.specs.Tokens.{Text, token_of};
ghost use Rattle.cr_expand.specs.HideSets.{Grows, set_at};
ghost use Rattle.cr_expand.specs.Held.{held, all_args, IsKnown, AreKnown, IsNamed, AreTables, watch_of, Does, Stops};
ghost use Rattle.cr_expand.specs.declared.held.Held.{Held as TheHeld};
ghost use Rattle.cr_expand.specs.Items.{item_text, item_texts, IsTokenNamed};
ghost use Rattle.cr_expand.specs.Parts.{joins, part_text, part_texts, IsPartKnown, IsItemNamed, filled_here, IsMade, Adds, filled_text, all_filled_text};

use crate::held::Held;
use crate::hide_sets::HideSets;
use crate::items::Item;
use crate::notes::Notes;
use crate::parts::{Part, arg, put_item, unhidden};
use crate::strings::string_of;
use cr_base::{NameTable, PpTok};
use cr_macros::ExpandFault;
use std::alloc::Global;

// The string of an item that is one; of another item the token itself, which isn't used.
fn made_for(
    alloc: Global,
    names: &mut NameTable,
    sets: &HideSets,
    notes: &mut Notes,
    name: PpTok,
    raw: &[Vec<Held>],
    item: Item,
) -> Result<Held, ExpandFault>
    requires room { length names.old < 2 ^ 32 - 1 }
    requires distinct { IsDistinct names.old }
    ensures made { (hide : List Text) → IfOk result (λ h. IsMade (watch_of names.old notes.old) notes.old.seen.items notes.new.seen.items names.old names.new sets.now (token_of names.old hide name) (map (λ v. v.items) raw.now) h item) }
    ensures stops { (hide : List Text) (full : List (List TheHeld)) → IfErr result (λ e. Stops (filled_text names.old sets.now (token_of names.old hide name) (map (λ v. v.items) raw.now) full item) e) }
    ensures grows { Grows names.old names.new }
    ensures length { length names.new ≤ length names.old + 1 }
    ensures distinct { IsDistinct names.new }
    ensures same { (notes.new.from ≡ notes.old.from) × (notes.new.to ≡ notes.old.to) }
{
    match item {
        Item::Spelt(hash, n) => {
            let made = string_of(alloc, names, sets, notes, name, hash, arg(raw, n))?;
            Ok(made)
        }
        _ => Ok(unhidden(name)),
    }
}

// Puts what an item gives behind the parts.
fn fill_one(
    alloc: Global,
    names: &mut NameTable,
    sets: &HideSets,
    notes: &mut Notes,
    name: PpTok,
    raw: &[Vec<Held>],
    full: &[Vec<Held>],
    item: Item,
    parts: &mut Vec<Part>,
) -> Result<(), ExpandFault>
    requires room { length names.old < 2 ^ 32 - 1 }
    requires tables { AreTables names.old sets.now }
    requires named { IsItemNamed names.old item }
    requires raw { All (AreKnown names.old sets.now) (map (λ v. v.items) raw.now) }
    requires full { All (AreKnown names.old sets.now) (map (λ v. v.items) full.now) }
    ensures adds { (hide : List Text) → OnOk result (Adds (watch_of names.old notes.old) notes.old.seen.items notes.new.seen.items (filled_text names.old sets.now (token_of names.old hide name) (map (λ v. v.items) raw.now) (map (λ v. v.items) full.now) item) names.new sets.now parts.old.items parts.new.items) }
    ensures stops { (hide : List Text) → IfErr result (λ e. Stops (filled_text names.old sets.now (token_of names.old hide name) (map (λ v. v.items) raw.now) (map (λ v. v.items) full.now) item) e) }
    ensures grows { Grows names.old names.new }
    ensures length { length names.new ≤ length names.old + 1 }
    ensures distinct { IsDistinct names.new }
    ensures same { (notes.new.from ≡ notes.old.from) × (notes.new.to ≡ notes.old.to) }
    ensures joins { OnOk result (length names.new + joins parts.new.items ≤ length names.old + joins parts.old.items + 1) }
{
    let made = made_for(alloc, names, sets, notes, name, raw, item)?;
    put_item(parts, raw, full, made, item)?;
    Ok(())
}

/// The parts of a body: its items filled in with the arguments as they are and expanded.
pub fn fill(
    alloc: Global,
    names: &mut NameTable,
    sets: &HideSets,
    notes: &mut Notes,
    name: PpTok,
    raw: &[Vec<Held>],
    full: &[Vec<Held>],
    items: &[Item],
) -> Result<Vec<Part>, ExpandFault>
    requires room { length names.old + length items.now < 2 ^ 32 - 1 }
    requires tables { AreTables names.old sets.now }
    requires name { IsTokenNamed names.old name }
    requires watched { IsNamed names.old notes.old.from × IsNamed names.old notes.old.to }
    requires named { All (IsItemNamed names.old) items.now }
    requires raw { All (AreKnown names.old sets.now) (map (λ v. v.items) raw.now) }
    requires full { All (AreKnown names.old sets.now) (map (λ v. v.items) full.now) }
    ensures does { (hide : List Text) → IfOk result (λ parts. Does (watch_of names.old notes.old) notes.old.seen.items notes.new.seen.items (all_filled_text names.old sets.now (token_of names.old hide name) (map (λ v. v.items) raw.now) (map (λ v. v.items) full.now) items.now) (part_texts names.new sets.now parts.items)) }
    ensures known { IfOk result (λ parts. All (IsPartKnown names.new sets.now) parts.items) }
    ensures stops { (hide : List Text) → IfErr result (λ e. Stops (all_filled_text names.old sets.now (token_of names.old hide name) (map (λ v. v.items) raw.now) (map (λ v. v.items) full.now) items.now) e) }
    ensures grows { Grows names.old names.new }
    ensures length { length names.new ≤ length names.old + length items.now }
    ensures distinct { IsDistinct names.new }
    ensures same { (notes.new.from ≡ notes.old.from) × (notes.new.to ≡ notes.old.to) }
    ensures joins { IfOk result (λ parts. length names.new + joins parts.items ≤ length names.old + length items.now) }
{
    let mut parts = Vec::new(alloc);
    for i in 0..items.len() {
        fill_one(
            alloc, names, sets, notes, name, raw, full, items[i], &mut parts,
        )?;
    }
    Ok(parts)
}
