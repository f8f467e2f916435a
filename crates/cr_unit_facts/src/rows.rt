//! Facts of declarations.
ghost use Rattle.std.specs.Prelude.{◌≡◌, ◌<◌, true, length, OnOk};
ghost use Rattle.cr_groups.specs.Adding.{Adds, OfFirst};
ghost use Rattle.cr_groups.specs.Built.{AreSpelled};
ghost use Rattle.cr_unit_facts.specs.Telling as spec;
ghost use Rattle.cr_unit_facts.specs.Telling.{RowTells, NewTells, DeclaredTells};

use crate::nature::{Nature, nature_of};
use crate::occurring::add_occurrence;
use cr_base::{Key, NameTable, OutOfMemory, Tok};
use cr_declared::{Row, Slot};
use cr_facts::{Fact, FactSet};
use cr_groups::{Group, Names, add_fact, group_at, is_same};
use indexmap::IndexMap;
use std::alloc::Global;

/// Adds what a token tells that means what a row declares, whose slot has a group.
pub fn add_of_row(
    alloc: Global,
    facts: &mut FactSet,
    tokens: &[Tok],
    groups: &IndexMap<Slot, Group>,
    linked: Nature,
    token: u32,
    declares: bool,
    row: Row,
) -> Result<(), OutOfMemory>
    requires { token < length tokens.now }
    ensures { OnOk result (Adds facts.old facts.new
        (RowTells tokens.now groups.now.entries linked token declares row)) }
{
    let slot = Slot {
        path: row.path,
        space: row.decl.space,
        name: row.decl.name,
    };
    let Some(group) = group_at(groups, slot) else {
        return Ok(());
    };
    let nature = nature_of(linked, row);
    add_occurrence(alloc, facts, tokens, token, &group.key, declares, nature)?;
    Ok(())
}

/// Whether other units can have a key too.
pub fn is_shared(key: &Key) -> bool
    ensures { result ≡ spec.is_shared key.now }
{
    match key {
        Key::Ext(_) | Key::Tag(_, _) | Key::Member(_, _) => true,
        Key::At(_) | Key::Made(_, _) => false,
    }
}

// Adds that the entity that a row declares has the new name, where other units can have it too.
fn add_new(
    alloc: Global,
    facts: &mut FactSet,
    groups: &IndexMap<Slot, Group>,
    row: Row,
) -> Result<(), OutOfMemory>
    ensures { OnOk result (Adds facts.old facts.new (NewTells groups.now.entries row)) }
{
    let slot = Slot {
        path: row.path,
        space: row.decl.space,
        name: row.decl.name,
    };
    let Some(group) = group_at(groups, slot) else {
        return Ok(());
    };
    if !is_shared(&group.key) {
        return Ok(());
    }
    let key = group.key.copy(alloc)?;
    add_fact(facts, Fact::NewKey(key))?;
    Ok(())
}

// Adds what a declaration of the old name tells.
fn add_if_old(
    alloc: Global,
    facts: &mut FactSet,
    tokens: &[Tok],
    groups: &IndexMap<Slot, Group>,
    names: Names,
    linked: Nature,
    row: Row,
) -> Result<(), OutOfMemory>
    requires { row.decl.token < length tokens.now }
    ensures { OnOk result (Adds facts.old facts.new (λ f. (row.decl.name ≡ names.old)
        × RowTells tokens.now groups.now.entries linked row.decl.token true row f)) }
{
    if !is_same(row.decl.name, names.old) {
        return Ok(());
    }
    add_of_row(
        alloc,
        facts,
        tokens,
        groups,
        linked,
        row.decl.token,
        true,
        row,
    )?;
    Ok(())
}

// Adds what a declaration tells.
fn add_declared(
    alloc: Global,
    facts: &mut FactSet,
    tokens: &[Tok],
    groups: &IndexMap<Slot, Group>,
    names: Names,
    linked: Nature,
    row: Row,
) -> Result<(), OutOfMemory>
    requires { row.decl.token < length tokens.now }
    ensures { OnOk result (Adds facts.old facts.new (DeclaredTells tokens.now groups.now.entries
        names.old names.new linked row)) }
{
    add_if_old(alloc, facts, tokens, groups, names, linked, row)?;
    if !is_same(row.decl.name, names.new) {
        return Ok(());
    }
    add_new(alloc, facts, groups, row)?;
    Ok(())
}

/// Adds what the declarations of a unit tell.
pub fn add_all_declared(
    alloc: Global,
    facts: &mut FactSet,
    tokens: &[Tok],
    table: &NameTable,
    rows: &[Row],
    groups: &IndexMap<Slot, Group>,
    names: Names,
    linked: Nature,
) -> Result<(), OutOfMemory>
    requires spelled { AreSpelled table.now tokens.now rows.now }
    ensures { OnOk result (Adds facts.old facts.new (OfFirst (DeclaredTells tokens.now
        groups.now.entries names.old names.new linked) rows.now (length rows.now))) }
{
    let mut i = 0;
    'each: while i < rows.len() {
        add_declared(alloc, facts, tokens, groups, names, linked, rows[i])?;
        i += 1;
    }
    Ok(())
}
