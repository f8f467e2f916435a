//! The innermost and the outermost group of a name around a place.
ghost use Rattle.std.specs.Prelude.{◌≡◌, ◌<◌, ◌↔◌, [], length, IsTrue, MatchOption};
ghost use Rattle.cr_paths.specs.Paths.{path_at, AreDistinct};
ghost use Rattle.cr_groups.specs.Nearest.{IsFoundAt, NoneAround, IsNearest, IsOutermost, ShowsFrom};

use crate::groups::{Group, Sort, group_at, is_of};
use crate::outward::depth;
use cr_declared::Slot;
use cr_paths::Paths;
use indexmap::IndexMap;

// Whether there is a group of a sort in a scope, with a declaration before a number.
fn is_found(
    groups: &IndexMap<Slot, Group>,
    sought: Slot,
    at: usize,
    before: usize,
    sort: Sort,
) -> bool
    ensures { IsTrue result ↔ IsFoundAt groups.now.entries sought before sort at }
{
    let slot = Slot {
        path: at,
        space: sought.space,
        name: sought.name,
    };
    match group_at(groups, slot) {
        Some(group) => group.first < before && is_of(group.is_typedef, sort),
        None => false,
    }
}

/// The innermost scope around a slot's that has a group of its name and of a sort, with a declaration before a number.
///
/// The slot's scope itself counts as around. Scopes are the numbers of their paths.
pub fn nearest(
    paths: &Paths,
    groups: &IndexMap<Slot, Group>,
    sought: Slot,
    before: usize,
    sort: Sort,
) -> Option<usize>
    requires within { sought.path < length paths.now }
    requires distinct { AreDistinct paths.now }
    requires file_scope { path_at paths.now 0 ≡ [] }
    ensures { MatchOption result
        (NoneAround paths.now groups.now.entries sought before sort)
        (IsNearest paths.now groups.now.entries sought before sort) }
{
    let mut at = sought.path;
    'outward: loop {
        if is_found(groups, sought, at, before, sort) {
            return Some(at);
        }
        if at == 0 {
            return None;
        }
        at = paths.outer(at);
    }
}

/// The outermost scope around a slot's that has a group of its name and of a sort, with a declaration before a number.
pub fn outermost(
    paths: &Paths,
    groups: &IndexMap<Slot, Group>,
    sought: Slot,
    before: usize,
    sort: Sort,
) -> Option<usize>
    requires within { sought.path < length paths.now }
    requires distinct { AreDistinct paths.now }
    requires file_scope { path_at paths.now 0 ≡ [] }
    ensures { MatchOption result
        (NoneAround paths.now groups.now.entries sought before sort)
        (IsOutermost paths.now groups.now.entries sought before sort) }
{
    let mut at = sought.path;
    let mut best = None;
    'outward: loop {
        if is_found(groups, sought, at, before, sort) {
            best = Some(at);
        }
        if at == 0 {
            return best;
        }
        at = paths.outer(at);
    }
}

/// Whether a scope around a slot's that is at least so deep has a group of its name, with a declaration before a number.
pub fn shows_from(
    paths: &Paths,
    groups: &IndexMap<Slot, Group>,
    sought: Slot,
    before: usize,
    limit: usize,
) -> bool
    requires within { sought.path < length paths.now }
    requires distinct { AreDistinct paths.now }
    requires file_scope { path_at paths.now 0 ≡ [] }
    ensures { IsTrue result ↔ ShowsFrom paths.now groups.now.entries sought before limit }
{
    match nearest(paths, groups, sought, before, Sort::Any) {
        Some(at) => limit <= depth(paths, at),
        None => false,
    }
}
