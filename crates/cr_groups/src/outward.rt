//! The groups of a name in the scopes around a place.
ghost use Rattle.std.specs.Prelude.{◌≡◌, ◌<◌, ◌≤◌, [], length, OnOk};
ghost use Rattle.cr_paths.specs.Paths.{path_at, AreDistinct};
ghost use Rattle.cr_groups.specs.Adding.{Adds};
ghost use Rattle.cr_groups.specs.Outward.{limit_over, IsHere, IsAround};

use crate::adding::add_fact;
use crate::groups::{Group, Sort, group_at, is_of};
use cr_base::{OutOfMemory, Place};
use cr_declared::Slot;
use cr_facts::{Fact, FactSet};
use cr_paths::Paths;
use indexmap::IndexMap;
use std::alloc::Global;

/// How many scopes a scope stands in, file scope apart.
pub fn depth(paths: &Paths, place: usize) -> usize
    requires within { place < length paths.now }
    requires file_scope { path_at paths.now 0 ≡ [] }
    ensures is { result ≡ length (path_at paths.now place) }
    ensures small { result ≤ place }
{
    let mut at = place;
    let mut deep = 0;
    'outward: while at != 0 {
        at = paths.outer(at);
        deep += 1;
    }
    deep
}

/// Adds a conflict of the group of a slot, where it is of a sort and has a declaration before a number.
pub fn add_here(
    alloc: Global,
    facts: &mut FactSet,
    groups: &IndexMap<Slot, Group>,
    slot: Slot,
    before: usize,
    sort: Sort,
    site: Place,
) -> Result<(), OutOfMemory>
    ensures { OnOk result (Adds facts.old facts.new
        (IsHere groups.now.entries slot before sort site)) }
{
    let Some(group) = group_at(groups, slot) else {
        return Ok(());
    };
    if group.first < before && is_of(group.is_typedef, sort) {
        let key = group.key.copy(alloc)?;
        add_fact(facts, Fact::Conflict(key, site))?;
    }
    Ok(())
}

// Adds a conflict of each group of a slot's name that is of a sort, has a declaration before a number, and stands in a
// scope around the slot's that is at least so deep.
fn add_outward(
    alloc: Global,
    facts: &mut FactSet,
    paths: &Paths,
    groups: &IndexMap<Slot, Group>,
    sought: Slot,
    before: usize,
    limit: usize,
    sort: Sort,
    site: Place,
) -> Result<(), OutOfMemory>
    requires within { sought.path < length paths.now }
    requires distinct { AreDistinct paths.now }
    requires file_scope { path_at paths.now 0 ≡ [] }
    ensures { OnOk result (Adds facts.old facts.new
        (IsAround paths.now groups.now.entries sought before limit sort site)) }
{
    let mut at = sought.path;
    let mut deep = depth(paths, at);
    'outward: loop {
        if deep < limit {
            return Ok(());
        }
        let here = Slot {
            path: at,
            space: sought.space,
            name: sought.name,
        };
        add_here(alloc, facts, groups, here, before, sort, site)?;
        if at == 0 {
            return Ok(());
        }
        at = paths.outer(at);
        deep -= 1;
    }
}

/// Adds a conflict of each group of a slot's name that is of a sort, has a declaration before a number, and stands in a
/// scope around the slot's, deeper than a depth; `None`: at any depth.
pub fn add_deeper(
    alloc: Global,
    facts: &mut FactSet,
    paths: &Paths,
    groups: &IndexMap<Slot, Group>,
    sought: Slot,
    before: usize,
    over: Option<usize>,
    sort: Sort,
    site: Place,
) -> Result<(), OutOfMemory>
    requires within { sought.path < length paths.now }
    requires distinct { AreDistinct paths.now }
    requires file_scope { path_at paths.now 0 ≡ [] }
    ensures { OnOk result (Adds facts.old facts.new
        (IsAround paths.now groups.now.entries sought before (limit_over over) sort site)) }
{
    let Some(over) = over else {
        add_outward(alloc, facts, paths, groups, sought, before, 0, sort, site)?;
        return Ok(());
    };
    if depth(paths, sought.path) <= over {
        return Ok(());
    }
    let limit = over + 1;
    add_outward(
        alloc, facts, paths, groups, sought, before, limit, sort, site,
    )?;
    Ok(())
}
