//! All facts of a unit.
ghost use Rattle.std.specs.Prelude.{◌≡◌, ◌↔◌, true, length, map, IfOk, OnOk};
ghost use Rattle.std.specs.FinSet.{contains};
ghost use Rattle.cr_facts.specs.declared.fact.Fact.{Fact};
ghost use Rattle.cr_binding.specs.State.{State};
ghost use Rattle.cr_binding.specs.UnitFacts.{Tells};
ghost use Rattle.cr_declared.specs.Rows.{entry_of, AreRows, AreApart, AreFormed};
ghost use Rattle.cr_groups.specs.Adding.{Adds};
ghost use Rattle.cr_groups.specs.Built.{AreSpelled};
ghost use Rattle.cr_groups.specs.Rows.{source_of, AreSound, AreShown};
ghost use Rattle.cr_conflicts.specs.Members.{AreMembers, AreAllMembers, AreUnique};
ghost use Rattle.cr_unit_facts.specs.Whole.{AreTables, RowsTell};

use crate::members::{add_all_members, owns_of};
use crate::nature::{Nature, linked_nature};
use crate::rows::add_all_declared;
use crate::tokens::{add_all_tokens, hidden_of};
use crate::uses::add_all_uses;
use cr_base::{NameTable, OutOfMemory, Tok};
use cr_conflicts::{MemberRow, add_conflicts, tags_of};
use cr_declared::{Row, Slot, UseRow};
use cr_facts::FactSet;
use cr_groups::{Group, Linked, Names, groups_of, linked_in};
use cr_paths::Paths;
use indexmap::IndexMap;
use std::alloc::Global;

/// What is found of a unit before its facts are told: the first declarations with linkage, the nature of what has the old
/// name with linkage, the groups of declarations, the tokens of tags and of members where they are written, and the tokens in
/// the brackets of attributes.
#[derive(Drop)]
pub struct Tables {
    pub linked: Linked,
    pub nature: Nature,
    pub groups: IndexMap<Slot, Group>,
    pub tags: IndexMap<usize, usize>,
    pub owns: IndexMap<usize, usize>,
    pub hidden: IndexMap<usize, usize>,
}

// Finds what the facts of a unit are told by.
fn tables_of(
    alloc: Global,
    unit: u32,
    tokens: &[Tok],
    table: &NameTable,
    rows: &[Row],
    members: &[MemberRow],
    hidden: &[u32],
    names: Names,
) -> Result<Tables, OutOfMemory>
    requires spelled { AreSpelled table.now tokens.now rows.now }
    ensures { IfOk result (λ tables. AreTables unit table.now tokens.now rows.now members.now
        hidden.now names.old names.new tables) }
{
    let linked = linked_in(rows, names);
    let nature = linked_nature(rows, names.old);
    let groups = groups_of(alloc, unit, tokens, table, rows, names, linked)?;
    let tags = tags_of(alloc, rows)?;
    let owns = owns_of(alloc, members)?;
    let hidden = hidden_of(alloc, hidden)?;
    Ok(Tables {
        linked,
        nature,
        groups,
        tags,
        owns,
        hidden,
    })
}

// Adds what the identifiers of a unit tell.
fn add_identifiers(
    alloc: Global,
    facts: &mut FactSet,
    unit: u32,
    tokens: &[Tok],
    table: &NameTable,
    paths: &Paths,
    rows: &[Row],
    uses: &[UseRow],
    members: &[MemberRow],
    records: &[u32],
    hidden: &[u32],
    names: Names,
    tables: &Tables,
) -> Result<(), OutOfMemory>
    requires sound { AreSound tokens.now paths.now rows.now uses.now }
    requires spelled { AreSpelled table.now tokens.now rows.now }
    requires members { AreAllMembers table.now tokens.now records.now members.now }
    requires tables { AreTables unit table.now tokens.now rows.now members.now
        hidden.now names.old names.new tables.now }
    ensures { OnOk result (Adds facts.old facts.new (RowsTell unit table.now tokens.now rows.now
        uses.now members.now records.now names.old names.new tables.now)) }
{
    add_all_declared(
        alloc,
        facts,
        tokens,
        table,
        rows,
        &tables.groups,
        names,
        tables.nature,
    )?;
    add_all_members(
        alloc,
        facts,
        unit,
        tokens,
        table,
        rows,
        &tables.tags,
        records,
        members,
        names,
    )?;
    add_all_uses(
        alloc,
        facts,
        unit,
        tokens,
        table,
        paths,
        rows,
        uses,
        &tables.groups,
        &tables.tags,
        records,
        members,
        &tables.owns,
        names.old,
        tables.nature,
    )?;
    add_all_tokens(facts, tokens, &tables.hidden, names)?;
    Ok(())
}

/// The facts of a unit that its binding tells: of identifiers of the old name what they mean, of entities of both names what
/// is known, and where a renaming would change a meaning. Those of preprocessing aren't among them.
///
/// The unit is told by its number and its tokens, the declarations with the paths of their scopes, the uses, the members, the
/// first tokens of its records, and the tokens in the brackets of attributes.
pub fn facts_of_unit(
    alloc: Global,
    unit: u32,
    tokens: &[Tok],
    table: &NameTable,
    paths: &Paths,
    rows: &[Row],
    uses: &[UseRow],
    members: &[MemberRow],
    records: &[u32],
    hidden: &[u32],
    names: Names,
) -> Result<FactSet, OutOfMemory>
    requires kept { AreRows paths.now rows.now }
    requires apart { AreApart (map (entry_of paths.now) rows.now) }
    requires formed { AreFormed (map (entry_of paths.now) rows.now) }
    requires sound { AreSound tokens.now paths.now rows.now uses.now }
    requires spelled { AreSpelled table.now tokens.now rows.now }
    requires members { AreAllMembers table.now tokens.now records.now members.now }
    requires unique { AreUnique tokens.now members.now }
    ensures { IfOk result (λ facts. (s : State)
        → AreShown (source_of table.now tokens.now) s paths.now rows.now uses.now
        → AreMembers s members.now records.now → hidden.now ≡ s.hidden
        → (f : Fact) → (contains facts f ≡ true)
        ↔ Tells unit (source_of table.now tokens.now) s names.old names.new f) }
{
    let tables = tables_of(alloc, unit, tokens, table, rows, members, hidden, names)?;
    let mut facts = FactSet::new(alloc);
    add_identifiers(
        alloc, &mut facts, unit, tokens, table, paths, rows, uses, members, records, hidden, names,
        &tables,
    )?;
    add_conflicts(
        alloc,
        &mut facts,
        unit,
        tokens,
        table,
        paths,
        rows,
        uses,
        members,
        records,
        names,
        tables.linked,
        &tables.groups,
        &tables.tags,
    )?;
    Ok(facts)
}
