//! Conflicts of declarations: two names in one scope and space, and two names that have linkage.
ghost use Rattle.std.specs.Prelude.{◌≡◌, ◌<◌, max, length, slice_get, OnOk};
ghost use Rattle.cr_groups.specs.Adding.{Adds};
ghost use Rattle.cr_groups.specs.Built.{AreLinked, AreSpelled};
ghost use Rattle.cr_conflicts.specs.BothLinked.{LinkedAdds};
ghost use Rattle.cr_conflicts.specs.Pairs.{find_least, named, IsAt, IsBeside, PairAdds, FirstPairsAdd};

use crate::uses::place_in;
use cr_base::{Name, NameTable, OutOfMemory, Place, Tok};
use cr_declared::{Row, Slot};
use cr_facts::{Fact, FactSet};
use cr_groups::{Group, Linked, Names, add_fact, group_at, is_same};
use indexmap::IndexMap;
use std::alloc::Global;

// A declaration by its number.
pub fn row_at(rows: &[Row], n: usize) -> Option<Row>
    ensures { result ≡ slice_get rows.now n }
{
    rows.get(n).copied()
}

// The slot of a declaration under another name.
pub fn slot_as(row: Row, name: Name) -> Slot
    ensures { result ≡ named name row }
{
    Slot {
        path: row.path,
        space: row.decl.space,
        name,
    }
}

// The later of two tokens.
pub fn later(a: u32, b: u32) -> u32
    ensures { result ≡ max a b }
{
    if a < b { b } else { a }
}

// Adds the conflict of two names that have linkage.
pub fn add_linked(
    alloc: Global,
    facts: &mut FactSet,
    table: &NameTable,
    tokens: &[Tok],
    rows: &[Row],
    groups: &IndexMap<Slot, Group>,
    names: Names,
    linked: Linked,
) -> Result<(), OutOfMemory>
    requires linked { AreLinked rows.now names.old names.new linked }
    requires spelled { AreSpelled table.now tokens.now rows.now }
    ensures { OnOk result (Adds facts.old facts.new
        (LinkedAdds names.old names.new tokens.now rows.now groups.now.entries)) }
{
    let Some(i) = linked.old else {
        return Ok(());
    };
    let Some(j) = linked.new else {
        return Ok(());
    };
    let Some(x) = rows.get(i) else {
        return Ok(());
    };
    let Some(y) = rows.get(j) else {
        return Ok(());
    };
    let Some(group) = group_at(groups, slot_as(*x, x.decl.name)) else {
        return Ok(());
    };
    let key = group.key.copy(alloc)?;
    let site = place_in(tokens, later(x.decl.token, y.decl.token));
    add_fact(facts, Fact::Conflict(key, site))?;
    Ok(())
}

// The least token of a slot.
pub fn least_at(leasts: &IndexMap<Slot, u32>, slot: Slot) -> Option<u32>
    ensures { result ≡ find_least leasts.now.entries slot }
{
    leasts.get(&slot).copied()
}

// The least token of the other name beside a declaration of one of the names.
fn beside(leasts: &IndexMap<Slot, u32>, names: Names, row: Row) -> Option<u32>
    ensures { IsBeside names.old names.new (find_least leasts.now.entries) row result }
{
    if is_same(row.decl.name, names.old) {
        least_at(leasts, slot_as(row, names.new))
    } else if is_same(row.decl.name, names.new) {
        least_at(leasts, slot_as(row, names.old))
    } else {
        None
    }
}

// Adds a conflict of the group of a slot.
pub fn add_at(
    alloc: Global,
    facts: &mut FactSet,
    groups: &IndexMap<Slot, Group>,
    slot: Slot,
    site: Place,
) -> Result<(), OutOfMemory>
    ensures { OnOk result (Adds facts.old facts.new (IsAt groups.now.entries slot site)) }
{
    let Some(group) = group_at(groups, slot) else {
        return Ok(());
    };
    let key = group.key.copy(alloc)?;
    add_fact(facts, Fact::Conflict(key, site))?;
    Ok(())
}

// Adds the conflict of a declaration that has one of the other name beside it.
fn add_pair(
    alloc: Global,
    facts: &mut FactSet,
    tokens: &[Tok],
    groups: &IndexMap<Slot, Group>,
    leasts: &IndexMap<Slot, u32>,
    names: Names,
    row: Row,
) -> Result<(), OutOfMemory>
    requires token { row.decl.token < length tokens.now }
    ensures { OnOk result (Adds facts.old facts.new (PairAdds names.old names.new tokens.now
        groups.now.entries (find_least leasts.now.entries) row)) }
{
    let Some(least) = beside(leasts, names, row) else {
        return Ok(());
    };
    if row.decl.token < least {
        return Ok(());
    }
    let site = place_in(tokens, row.decl.token);
    add_at(alloc, facts, groups, slot_as(row, names.old), site)?;
    Ok(())
}

/// Adds the conflicts of declarations that have one of the other name beside them.
pub fn add_pairs(
    alloc: Global,
    facts: &mut FactSet,
    table: &NameTable,
    tokens: &[Tok],
    rows: &[Row],
    groups: &IndexMap<Slot, Group>,
    leasts: &IndexMap<Slot, u32>,
    names: Names,
) -> Result<(), OutOfMemory>
    requires spelled { AreSpelled table.now tokens.now rows.now }
    ensures { OnOk result (Adds facts.old facts.new (FirstPairsAdd names.old names.new tokens.now
        rows.now groups.now.entries (find_least leasts.now.entries) (length rows.now))) }
{
    let mut i = 0;
    'each: while i < rows.len() {
        add_pair(alloc, facts, tokens, groups, leasts, names, rows[i])?;
        i += 1;
    }
    Ok(())
}
