//! Facts of uses.
ghost use Rattle.std.specs.Prelude.{◌≡◌, ◌<◌, false, length, OnOk};
ghost use Rattle.cr_groups.specs.Adding.{Adds, OfFirst};
ghost use Rattle.cr_groups.specs.Built.{AreSpelled};
ghost use Rattle.cr_groups.specs.Firsts.{AreFirsts};
ghost use Rattle.cr_groups.specs.Rows.{IsSound, AreSound};
ghost use Rattle.cr_base.specs.declared.key.Key.TheVariants as key;
ghost use Rattle.cr_groups.specs.Rows.{name_in};
ghost use Rattle.cr_conflicts.specs.Members.{tag_token, AreAllMembers};
ghost use Rattle.cr_unit_facts.specs.Occurring.{TokenSays};
ghost use Rattle.cr_unit_facts.specs.Telling as spec;
ghost use Rattle.cr_unit_facts.specs.Telling.{own_token, DenotedTells, SelectedTells, UseTells};

use crate::members::member_nature;
use crate::nature::Nature;
use crate::occurring::add_occurrence;
use crate::rows::add_of_row;
use cr_base::{Key, Name, NameTable, OutOfMemory, Tok};
use cr_conflicts::{MemberRow, member_at, member_key, name_in, row_at};
use cr_declared::{Row, Slot, UseRow};
use cr_facts::FactSet;
use cr_groups::{Group, first_at, is_same};
use cr_paths::Paths;
use indexmap::IndexMap;
use std::alloc::Global;

// Adds what a token tells that denotes a declaration, by the declaration's number.
fn add_denoted(
    alloc: Global,
    facts: &mut FactSet,
    tokens: &[Tok],
    rows: &[Row],
    groups: &IndexMap<Slot, Group>,
    old: Name,
    linked: Nature,
    token: u32,
    denoted: Option<usize>,
) -> Result<(), OutOfMemory>
    requires { token < length tokens.now }
    ensures { OnOk result (Adds facts.old facts.new (DenotedTells tokens.now rows.now
        groups.now.entries old linked token denoted)) }
{
    let Some(n) = denoted else {
        return Ok(());
    };
    if !is_same(name_in(tokens, token), old) {
        return Ok(());
    }
    let Some(row) = row_at(rows, n) else {
        return Ok(());
    };
    add_of_row(alloc, facts, tokens, groups, linked, token, false, row)?;
    Ok(())
}

// Adds what a token tells that selects a member, by the token that declares the member.
fn add_selected(
    alloc: Global,
    facts: &mut FactSet,
    unit: u32,
    tokens: &[Tok],
    table: &NameTable,
    rows: &[Row],
    tags: &IndexMap<usize, usize>,
    records: &[u32],
    members: &[MemberRow],
    owns: &IndexMap<usize, usize>,
    token: u32,
    member: u32,
) -> Result<(), OutOfMemory>
    requires token { token < length tokens.now }
    requires rows { AreSpelled table.now tokens.now rows.now }
    requires tags { AreFirsts tag_token rows.now tags.now.entries (length rows.now) }
    requires all { AreAllMembers table.now tokens.now records.now members.now }
    requires owns { AreFirsts own_token members.now owns.now.entries (length members.now) }
    ensures { OnOk result (Adds facts.old facts.new (SelectedTells unit table.now tokens.now
        rows.now records.now members.now token member)) }
{
    let Some(n) = first_at(owns, member as usize) else {
        return Ok(());
    };
    let Some(one) = member_at(members, n) else {
        return Ok(());
    };
    let key = member_key(alloc, unit, tokens, table, rows, tags, records, one)?;
    add_occurrence(alloc, facts, tokens, token, &key, false, member_nature())?;
    Ok(())
}

fn no_nature() -> Nature
    ensures { result ≡ spec.no_nature }
{
    Nature {
        kind: None,
        other: None,
        file_scope: false,
    }
}

// Adds what a token of the old name tells that denotes what is built in.
fn add_built_in(
    alloc: Global,
    facts: &mut FactSet,
    unit: u32,
    tokens: &[Tok],
    old: Name,
    token: u32,
) -> Result<(), OutOfMemory>
    requires { token < length tokens.now }
    ensures { OnOk result (Adds facts.old facts.new (λ f. (name_in tokens.now token ≡ old)
        × TokenSays tokens.now token false spec.no_nature (key.Made unit token) f)) }
{
    if !is_same(name_in(tokens, token), old) {
        return Ok(());
    }
    let key = Key::Made(unit, token);
    add_occurrence(alloc, facts, tokens, token, &key, false, no_nature())?;
    Ok(())
}

// Adds what a token of the old name tells that selects a member.
fn add_if_selected(
    alloc: Global,
    facts: &mut FactSet,
    unit: u32,
    tokens: &[Tok],
    table: &NameTable,
    rows: &[Row],
    tags: &IndexMap<usize, usize>,
    records: &[u32],
    members: &[MemberRow],
    owns: &IndexMap<usize, usize>,
    old: Name,
    token: u32,
    member: u32,
) -> Result<(), OutOfMemory>
    requires token { token < length tokens.now }
    requires rows { AreSpelled table.now tokens.now rows.now }
    requires tags { AreFirsts tag_token rows.now tags.now.entries (length rows.now) }
    requires all { AreAllMembers table.now tokens.now records.now members.now }
    requires owns { AreFirsts own_token members.now owns.now.entries (length members.now) }
    ensures { OnOk result (Adds facts.old facts.new (λ f. (name_in tokens.now token ≡ old)
        × SelectedTells unit table.now tokens.now rows.now records.now members.now
        token member f)) }
{
    if !is_same(name_in(tokens, token), old) {
        return Ok(());
    }
    add_selected(
        alloc, facts, unit, tokens, table, rows, tags, records, members, owns, token, member,
    )?;
    Ok(())
}

// Adds what a use tells.
fn add_use(
    alloc: Global,
    facts: &mut FactSet,
    unit: u32,
    tokens: &[Tok],
    table: &NameTable,
    paths: &Paths,
    rows: &[Row],
    groups: &IndexMap<Slot, Group>,
    tags: &IndexMap<usize, usize>,
    records: &[u32],
    members: &[MemberRow],
    owns: &IndexMap<usize, usize>,
    old: Name,
    linked: Nature,
    one: UseRow,
) -> Result<(), OutOfMemory>
    requires sound { IsSound tokens.now paths.now rows.now one }
    requires rows { AreSpelled table.now tokens.now rows.now }
    requires tags { AreFirsts tag_token rows.now tags.now.entries (length rows.now) }
    requires all { AreAllMembers table.now tokens.now records.now members.now }
    requires owns { AreFirsts own_token members.now owns.now.entries (length members.now) }
    ensures { OnOk result (Adds facts.old facts.new (UseTells unit table.now tokens.now rows.now
        groups.now.entries records.now members.now old linked one)) }
{
    match one {
        UseRow::LookedUp(_, token, _, _, denoted) => {
            add_denoted(
                alloc, facts, tokens, rows, groups, old, linked, token, denoted,
            )?;
            Ok(())
        }
        UseRow::GoesTo(token, label) => {
            let denoted = Some(label);
            add_denoted(
                alloc, facts, tokens, rows, groups, old, linked, token, denoted,
            )?;
            Ok(())
        }
        UseRow::Selects(token, member) => {
            add_if_selected(
                alloc, facts, unit, tokens, table, rows, tags, records, members, owns, old, token,
                member,
            )?;
            Ok(())
        }
        UseRow::IsBuiltIn(token) => {
            add_built_in(alloc, facts, unit, tokens, old, token)?;
            Ok(())
        }
        UseRow::IsParameter(_) | UseRow::WasAsked(_, _, _, _) => Ok(()),
    }
}

/// Adds what the uses of a unit tell.
pub fn add_all_uses(
    alloc: Global,
    facts: &mut FactSet,
    unit: u32,
    tokens: &[Tok],
    table: &NameTable,
    paths: &Paths,
    rows: &[Row],
    uses: &[UseRow],
    groups: &IndexMap<Slot, Group>,
    tags: &IndexMap<usize, usize>,
    records: &[u32],
    members: &[MemberRow],
    owns: &IndexMap<usize, usize>,
    old: Name,
    linked: Nature,
) -> Result<(), OutOfMemory>
    requires sound { AreSound tokens.now paths.now rows.now uses.now }
    requires rows { AreSpelled table.now tokens.now rows.now }
    requires tags { AreFirsts tag_token rows.now tags.now.entries (length rows.now) }
    requires all { AreAllMembers table.now tokens.now records.now members.now }
    requires owns { AreFirsts own_token members.now owns.now.entries (length members.now) }
    ensures { OnOk result (Adds facts.old facts.new (OfFirst (UseTells unit table.now tokens.now
        rows.now groups.now.entries records.now members.now old linked)
        uses.now (length uses.now))) }
{
    let mut i = 0;
    'each: while i < uses.len() {
        add_use(
            alloc, facts, unit, tokens, table, paths, rows, groups, tags, records, members, owns,
            old, linked, uses[i],
        )?;
        i += 1;
    }
    Ok(())
}
