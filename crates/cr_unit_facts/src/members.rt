//! Facts of members.
ghost use Rattle.std.specs.Prelude.{◌≡◌, ◌<◌, ◌↔◌, true, length, IsTrue, IfOk, OnOk};
ghost use Rattle.cr_facts.specs.declared.fact.Fact.TheVariants as fact;
ghost use Rattle.cr_groups.specs.Adding.{Adds, OfFirst};
ghost use Rattle.cr_groups.specs.Built.{AreSpelled};
ghost use Rattle.cr_groups.specs.Firsts.{AreFirsts};
ghost use Rattle.cr_groups.specs.Rows.{name_in};
ghost use Rattle.cr_conflicts.specs.Members.{tag_token, member_key_in, IsMember, AreAllMembers};
ghost use Rattle.cr_unit_facts.specs.Occurring.{TokenSays};
ghost use Rattle.cr_unit_facts.specs.Telling as spec;
ghost use Rattle.cr_unit_facts.specs.Telling.{own_token, IsTold, MemberTells, NamedTells};

use crate::nature::Nature;
use crate::occurring::add_occurrence;
use cr_base::{Key, Kind, Name, NameTable, OutOfMemory, Tok};
use cr_conflicts::{MemberRow, member_key, name_in};
use cr_declared::Row;
use cr_facts::{Fact, FactSet};
use cr_groups::{Names, add_fact, is_one_of, is_same, note_first};
use indexmap::IndexMap;
use std::alloc::Global;

/// The nature of members.
pub fn member_nature() -> Nature
    ensures { result ≡ spec.member_nature }
{
    Nature {
        kind: Some(Kind::Member),
        other: None,
        file_scope: false,
    }
}

fn own_in(one: MemberRow) -> Option<usize>
    ensures { result ≡ own_token one }
{
    if one.own == one.holder {
        Some(one.token as usize)
    } else {
        None
    }
}

/// Finds the members where they are written by the tokens that declare them, each with its number.
pub fn owns_of(alloc: Global, members: &[MemberRow]) -> Result<IndexMap<usize, usize>, OutOfMemory>
    ensures { IfOk result (λ owns. AreFirsts own_token
        members.now owns.entries (length members.now)) }
{
    let mut firsts = IndexMap::new(alloc);
    let mut i = 0;
    'each: while i < members.len() {
        note_first(&mut firsts, own_in(members[i]), i)?;
        i += 1;
    }
    Ok(firsts)
}

// Adds that a member has the new name, where it has.
fn add_if_new(
    alloc: Global,
    facts: &mut FactSet,
    name: Name,
    names: Names,
    key: &Key,
) -> Result<(), OutOfMemory>
    ensures { OnOk result (Adds facts.old facts.new
        (λ f. (name ≡ names.new) × (f ≡ fact.NewKey key.now))) }
{
    if !is_same(name, names.new) {
        return Ok(());
    }
    let key = key.copy(alloc)?;
    add_fact(facts, Fact::NewKey(key))?;
    Ok(())
}

// Adds what a member of the old name tells.
fn add_if_old(
    alloc: Global,
    facts: &mut FactSet,
    tokens: &[Tok],
    name: Name,
    names: Names,
    token: u32,
    key: &Key,
) -> Result<(), OutOfMemory>
    requires { token < length tokens.now }
    ensures { OnOk result (Adds facts.old facts.new (λ f. (name ≡ names.old)
        × TokenSays tokens.now token true spec.member_nature key.now f)) }
{
    if !is_same(name, names.old) {
        return Ok(());
    }
    add_occurrence(alloc, facts, tokens, token, key, true, member_nature())?;
    Ok(())
}

// Adds what a member of one of the names tells, by its key.
fn add_by_key(
    alloc: Global,
    facts: &mut FactSet,
    tokens: &[Tok],
    names: Names,
    token: u32,
    key: &Key,
) -> Result<(), OutOfMemory>
    requires { token < length tokens.now }
    ensures { OnOk result (Adds facts.old facts.new
        (NamedTells tokens.now names.old names.new token key.now)) }
{
    let name = name_in(tokens, token);
    add_if_old(alloc, facts, tokens, name, names, token, key)?;
    add_if_new(alloc, facts, name, names, key)?;
    Ok(())
}

// Whether a member has one of the names where it is written.
fn is_told(tokens: &[Tok], names: Names, one: MemberRow) -> bool
    requires { one.token < length tokens.now }
    ensures { IsTrue result ↔ IsTold tokens.now names.old names.new one }
{
    one.own == one.holder && is_one_of(names, name_in(tokens, one.token))
}

// Adds what a member tells.
fn add_member(
    alloc: Global,
    facts: &mut FactSet,
    unit: u32,
    tokens: &[Tok],
    table: &NameTable,
    rows: &[Row],
    tags: &IndexMap<usize, usize>,
    records: &[u32],
    names: Names,
    one: MemberRow,
) -> Result<(), OutOfMemory>
    requires rows { AreSpelled table.now tokens.now rows.now }
    requires tags { AreFirsts tag_token rows.now tags.now.entries (length rows.now) }
    requires member { IsMember table.now tokens.now records.now one }
    ensures { OnOk result (Adds facts.old facts.new (MemberTells unit table.now tokens.now rows.now
        records.now names.old names.new one)) }
{
    if !is_told(tokens, names, one) {
        return Ok(());
    }
    let key = member_key(alloc, unit, tokens, table, rows, tags, records, one)?;
    add_by_key(alloc, facts, tokens, names, one.token, &key)?;
    Ok(())
}

/// Adds what the members of a unit tell.
pub fn add_all_members(
    alloc: Global,
    facts: &mut FactSet,
    unit: u32,
    tokens: &[Tok],
    table: &NameTable,
    rows: &[Row],
    tags: &IndexMap<usize, usize>,
    records: &[u32],
    members: &[MemberRow],
    names: Names,
) -> Result<(), OutOfMemory>
    requires rows { AreSpelled table.now tokens.now rows.now }
    requires tags { AreFirsts tag_token rows.now tags.now.entries (length rows.now) }
    requires all { AreAllMembers table.now tokens.now records.now members.now }
    ensures { OnOk result (Adds facts.old facts.new (OfFirst (MemberTells unit table.now tokens.now
        rows.now records.now names.old names.new) members.now (length members.now))) }
{
    let mut i = 0;
    'each: while i < members.len() {
        add_member(
            alloc, facts, unit, tokens, table, rows, tags, records, names, members[i],
        )?;
        i += 1;
    }
    Ok(())
}
