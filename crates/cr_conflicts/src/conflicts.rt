//! All conflicts of a unit.
ghost use Rattle.std.specs.Prelude.{◌≡◌, ◌<◌, length, map, OnOk};
ghost use Rattle.cr_binding.specs.State.{State};
ghost use Rattle.cr_declared.specs.Rows.{entry_of, AreRows, AreApart, AreFormed};
ghost use Rattle.cr_groups.specs.Adding.{Adds};
ghost use Rattle.cr_groups.specs.Built.{AreLinked, AreSpelled, IsBuilt};
ghost use Rattle.cr_groups.specs.Rows.{source_of, AreSound, AreShown};
ghost use Rattle.cr_groups.specs.Firsts.{AreFirsts};
ghost use Rattle.cr_conflicts.specs.Meant.{IsOfUnit};
ghost use Rattle.cr_conflicts.specs.Members.{tag_token, AreMembers, AreAllMembers, AreUnique};

use crate::asks::{add_asks, by_token};
use crate::leasts::leasts_of;
use crate::members::{MemberRow, add_meetings, holders_of};
use crate::pairs::{add_linked, add_pairs};
use crate::uses::add_uses;
use cr_base::{NameTable, OutOfMemory, Tok};
use cr_declared::{Row, Slot, UseRow};
use cr_facts::FactSet;
use cr_groups::{Group, Linked, Names};
use cr_paths::Paths;
use indexmap::IndexMap;
use std::alloc::Global;

/// Adds the conflicts of a unit to a set of facts: what an entity of the old name can't be given the new one for, and where.
///
/// The unit is told by its number and its tokens, the declarations with the paths of their scopes, the uses, the members, and
/// the first tokens of its records. The groups and the tags are those of the declarations.
pub fn add_conflicts(
    alloc: Global,
    facts: &mut FactSet,
    unit: u32,
    tokens: &[Tok],
    table: &NameTable,
    paths: &Paths,
    rows: &[Row],
    uses: &[UseRow],
    members: &[MemberRow],
    records: &[u32],
    names: Names,
    linked: Linked,
    groups: &IndexMap<Slot, Group>,
    tags: &IndexMap<usize, usize>,
) -> Result<(), OutOfMemory>
    requires kept { AreRows paths.now rows.now }
    requires apart { AreApart (map (entry_of paths.now) rows.now) }
    requires formed { AreFormed (map (entry_of paths.now) rows.now) }
    requires sound { AreSound tokens.now paths.now rows.now uses.now }
    requires spelled { AreSpelled table.now tokens.now rows.now }
    requires members { AreAllMembers table.now tokens.now records.now members.now }
    requires unique { AreUnique tokens.now members.now }
    requires tags { AreFirsts tag_token rows.now tags.now.entries (length rows.now) }
    requires linked { AreLinked rows.now names.old names.new linked }
    requires built { IsBuilt unit table.now tokens.now rows.now
        names.old names.new groups.now.entries (length rows.now) }
    ensures { OnOk result ((s : State)
        → AreShown (source_of table.now tokens.now) s paths.now rows.now uses.now
        → AreMembers s members.now records.now
        → Adds facts.old facts.new
        (IsOfUnit unit (source_of table.now tokens.now) s names.old names.new)) }
{
    add_uses(alloc, facts, paths, rows, tokens, groups, names, uses)?;
    let leasts = leasts_of(alloc, rows, names)?;
    add_pairs(alloc, facts, table, tokens, rows, groups, &leasts, names)?;
    add_linked(alloc, facts, table, tokens, rows, groups, names, linked)?;
    let found = by_token(alloc, tokens, rows, uses, names)?;
    add_asks(
        alloc, facts, paths, rows, tokens, uses, groups, &found, names,
    )?;
    let holders = holders_of(alloc, tokens, members, names.new)?;
    add_meetings(
        alloc, facts, unit, tokens, table, rows, tags, records, members, &holders, names,
    )?;
    Ok(())
}
