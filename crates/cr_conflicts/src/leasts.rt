//! The least tokens of the declarations of the two names by slots.
ghost use Rattle.std.specs.Prelude.{◌≡◌, ◌<◌, Some, cond, length, IfOk, OnOk};
ghost use Rattle.cr_declared.specs.declared.rows.Slot.{Slot};
ghost use Rattle.cr_declared.specs.Rows.{same_slot};
ghost use Rattle.cr_conflicts.specs.Pairs.{find_least};
ghost use Rattle.cr_conflicts.specs.Leasts as spec;
ghost use Rattle.cr_conflicts.specs.Leasts.{AddsLeast, AreLeastOf};

use crate::pairs::{least_at, slot_as};
use cr_base::OutOfMemory;
use cr_declared::{Row, Slot};
use cr_groups::{Names, is_one_of};
use indexmap::IndexMap;
use std::alloc::Global;

// The least token of a slot becomes this.
fn put_least(leasts: &mut IndexMap<Slot, u32>, slot: Slot, token: u32) -> Result<(), OutOfMemory>
    ensures { OnOk result ((a : Slot) → find_least leasts.new.entries a
        ≡ cond (same_slot a slot) (Some token) (find_least leasts.old.entries a)) }
{
    leasts.insert(slot, token)?;
    Ok(())
}

// The lesser of a token and the one that was found.
fn lower(found: Option<u32>, token: u32) -> u32
    ensures { result ≡ spec.lower found token }
{
    match found {
        Some(k) => { if k < token { k } else { token } }
        None => token,
    }
}

// Takes a declaration of one of the names into account.
fn add_least(leasts: &mut IndexMap<Slot, u32>, names: Names, row: Row) -> Result<(), OutOfMemory>
    ensures { OnOk result
        (AddsLeast names.old names.new row leasts.old.entries leasts.new.entries) }
{
    if !is_one_of(names, row.decl.name) {
        return Ok(());
    }
    let slot = slot_as(row, row.decl.name);
    let token = lower(least_at(leasts, slot), row.decl.token);
    put_least(leasts, slot, token)?;
    Ok(())
}

/// The least token of each slot of the two names.
pub fn leasts_of(
    alloc: Global,
    rows: &[Row],
    names: Names,
) -> Result<IndexMap<Slot, u32>, OutOfMemory>
    ensures { IfOk result (λ leasts. AreLeastOf names.old names.new rows.now
        (find_least leasts.entries) (length rows.now)) }
{
    let mut leasts = IndexMap::new(alloc);
    let mut i = 0;
    'each: while i < rows.len() {
        add_least(&mut leasts, names, rows[i])?;
        i += 1;
    }
    Ok(leasts)
}
