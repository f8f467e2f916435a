//! Where the declarations of each name stand in each scope.
ghost use Rattle.std.specs.Prelude.{◌≡◌, ◌<◌, ◌&&◌, ◌||◌, [], Some, cond, length, OnOk};
ghost use Rattle.std.specs.HashMap.{spare};
ghost use Rattle.cr_declared.specs.declared.rows.Slot.{Slot};
ghost use Rattle.cr_declared.specs.Rows.{same_slot};
ghost use Rattle.cr_base.specs.declared.token.Name.{Name};
ghost use Rattle.cr_scope.specs.Declarations.{same_name};
ghost use Rattle.cr_scope.specs.Linkage.{has_linkage};
ghost use Rattle.cr_scope.specs.Redeclaration.{may_repeat, are_opposite};
ghost use Rattle.cr_declared.specs.Kept.{find_slot, find_linked, behind, or_else, repeats_wrong, links_wrong, last_row, row_at, IsNearest};
ghost use Rattle.cr_paths.specs.Paths.{path_at, AreDistinct};

use crate::rows::{Row, Slot};
use cr_base::{Name, OutOfMemory};
use cr_paths::Paths;
use cr_scope::{Decl, Kind, Linkage, Space};
use indexmap::IndexMap;

// The first and the last declaration of a slot.
#[derive(Clone, Copy)]
pub struct Ends {
    pub first: usize,
    pub last: usize,
}

// A slot's declarations.
pub fn ends_at(here: &IndexMap<Slot, Ends>, slot: Slot) -> Option<Ends>
    ensures { result ≡ find_slot slot here.now.entries }
{
    here.get(&slot).copied()
}

// The ends of a slot become these, where there is room for one more.
fn set_ends(here: &mut IndexMap<Slot, Ends>, slot: Slot, ends: Ends)
    requires { 0 < spare here.old }
    ensures { (a : Slot) → find_slot a here.new.entries ≡ cond (same_slot slot a) (Some ends) (find_slot a here.old.entries) }
{
    match here.insert(slot, ends) {
        Ok(_) => {}
        Err(_) => unreachable!(),
    }
}

// A slot has one more declaration behind the others, where there is room for one.
pub fn put_behind(here: &mut IndexMap<Slot, Ends>, slot: Slot, n: usize)
    requires { 0 < spare here.old }
    ensures { (a : Slot) → find_slot a here.new.entries ≡ behind (same_slot slot a) n (find_slot a here.old.entries) }
{
    let first = match ends_at(here, slot) {
        Some(ends) => ends.first,
        None => n,
    };
    set_ends(here, slot, Ends { first, last: n });
}

// The first declaration of a name that has linkage.
pub fn linked_at(linked: &IndexMap<Name, usize>, name: Name) -> Option<usize>
    ensures { result ≡ find_linked name linked.now.entries }
{
    linked.get(&name).copied()
}

fn set_linked(linked: &mut IndexMap<Name, usize>, name: Name, n: usize)
    requires { 0 < spare linked.old }
    ensures { (a : Name) → find_linked a linked.new.entries ≡ cond (same_name name a) (Some n) (find_linked a linked.old.entries) }
{
    match linked.insert(name, n) {
        Ok(_) => {}
        Err(_) => unreachable!(),
    }
}

// A name has a declaration with linkage, where there is room for one: the first unless there is an earlier one.
fn put_linked(linked: &mut IndexMap<Name, usize>, name: Name, n: usize)
    requires { 0 < spare linked.old }
    ensures { (a : Name) → find_linked a linked.new.entries ≡ or_else (same_name name a) n (find_linked a linked.old.entries) }
{
    let first = match linked_at(linked, name) {
        Some(i) => i,
        None => n,
    };
    set_linked(linked, name, first);
}

// The declarations of a name in the innermost scope that has some, from a scope outward.
pub fn nearest(
    paths: &Paths,
    here: &IndexMap<Slot, Ends>,
    place: usize,
    space: Space,
    name: Name,
) -> Option<Ends>
    requires within { place < length paths.now }
    requires distinct { AreDistinct paths.now }
    requires file_scope { path_at paths.now 0 ≡ [] }
    ensures { IsNearest paths.now here.now.entries place space name result }
{
    let mut at = place;
    'outward: loop {
        let sought = Slot {
            path: at,
            space,
            name,
        };
        match ends_at(here, sought) {
            Some(ends) => return Some(ends),
            None => {
                if at == 0 {
                    return None;
                }
                at = paths.outer(at);
            }
        }
    }
}

// Room for one more declaration.
pub fn make_room(
    here: &mut IndexMap<Slot, Ends>,
    linked: &mut IndexMap<Name, usize>,
) -> Result<(), OutOfMemory>
    ensures slots { here.new.entries ≡ here.old.entries }
    ensures names { linked.new.entries ≡ linked.old.entries }
    ensures slot_room { OnOk result (0 < spare here.new) }
    ensures name_room { OnOk result (0 < spare linked.new) }
{
    here.reserve(1)?;
    linked.reserve(1)?;
    Ok(())
}

// Whether declarations of two kinds in one scope may be of one thing.
fn may_repeat(d: &Decl, e: &Decl) -> bool
    ensures { result ≡ may_repeat d.now e.now }
{
    match (d.kind, e.kind) {
        (Kind::Function, Kind::Function) | (Kind::Object, Kind::Object) => {
            is_linked(d.linkage) && is_linked(e.linkage)
        }
        (Kind::Typedef, Kind::Typedef) => true,
        (Kind::Struct, Kind::Struct) => true,
        (Kind::Union, Kind::Union) => true,
        (Kind::Enum, Kind::Enum) => true,
        _ => false,
    }
}

fn are_opposite(a: Linkage, b: Linkage) -> bool
    ensures { result ≡ are_opposite a b }
{
    match (a, b) {
        (Linkage::Internal, Linkage::External) => true,
        (Linkage::External, Linkage::Internal) => true,
        _ => false,
    }
}

// Whether a linkage is one.
fn is_linked(linkage: Linkage) -> bool
    ensures { result ≡ has_linkage linkage }
{
    match linkage {
        Linkage::None => false,
        Linkage::Internal | Linkage::External => true,
    }
}

// Whether a declaration may not stand beside the last one of its slot.
fn repeats_wrong(rows: &[Row], last: Option<Ends>, d: &Decl) -> bool
    ensures { result ≡ repeats_wrong d.now (last_row rows.now last) }
{
    match last {
        Some(ends) => match rows.get(ends.last) {
            Some(row) => !may_repeat(d, &row.decl),
            None => false,
        },
        None => false,
    }
}

// Whether a declaration has the other linkage than the first one of its name that has some.
fn links_wrong(rows: &[Row], first: Option<usize>, d: &Decl) -> bool
    ensures { result ≡ links_wrong d.now (row_at rows.now first) }
{
    match first {
        Some(n) => match rows.get(n) {
            Some(row) => are_opposite(d.linkage, row.decl.linkage),
            None => false,
        },
        None => false,
    }
}

// Whether a declaration clashes with an earlier one.
pub fn clashes(
    rows: &[Row],
    here: &IndexMap<Slot, Ends>,
    linked: &IndexMap<Name, usize>,
    slot: Slot,
    d: &Decl,
) -> bool
    ensures { result ≡ (repeats_wrong d.now (last_row rows.now (find_slot slot here.now.entries)) || links_wrong d.now (row_at rows.now (find_linked d.now.name linked.now.entries))) }
{
    repeats_wrong(rows, ends_at(here, slot), d) || links_wrong(rows, linked_at(linked, d.name), d)
}

// A declaration is noted as one of its name that has linkage, if it has some and there is room for one.
pub fn note_linked(linked: &mut IndexMap<Name, usize>, d: &Decl, n: usize)
    requires { 0 < spare linked.old }
    ensures { (a : Name) → find_linked a linked.new.entries ≡ or_else (has_linkage d.now.linkage && same_name d.now.name a) n (find_linked a linked.old.entries) }
{
    if is_linked(d.linkage) {
        put_linked(linked, d.name, n);
    }
}
