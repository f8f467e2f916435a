//! How the declarations of the two names are grouped.
ghost use Rattle.std.specs.Prelude.{◌≡◌, ◌<◌, Some, cond, length, position, slice_get, is_some, IfOk, OnOk};
ghost use Rattle.cr_groups.specs.Groups.{find_group};
ghost use Rattle.cr_groups.specs.Rows.{IsOneOf};
ghost use Rattle.cr_groups.specs.Built as spec;
ghost use Rattle.cr_groups.specs.Built.{is_linked_row, row_key, group_of, AreSpelled, Puts, AddsRow, IsBuilt, AreLinked};

use crate::groups::{Group, group_at};
use crate::names::{Names, is_one_of, is_same};
use cr_base::{Key, Kind, Name, NameTable, Origin, OutOfMemory, TagKind, Text, Tok};
use cr_declared::{Row, Slot};
use cr_scope::{Linkage, Space};
use indexmap::IndexMap;
use std::alloc::Global;

// The declarations of a slot become these.
fn put(groups: &mut IndexMap<Slot, Group>, slot: Slot, group: Group) -> Result<(), OutOfMemory>
    ensures { OnOk result (Puts slot (Some group) groups.old.entries groups.new.entries) }
{
    groups.insert(slot, group)?;
    Ok(())
}

fn is_linked(linkage: Linkage) -> bool
    ensures { result ≡ spec.has_linkage linkage }
{
    match linkage {
        Linkage::None => false,
        Linkage::Internal | Linkage::External => true,
    }
}

fn is_external(linkage: Linkage) -> bool
    ensures { result ≡ spec.is_external linkage }
{
    match linkage {
        Linkage::None | Linkage::Internal => false,
        Linkage::External => true,
    }
}

fn is_typedef(kind: Kind) -> bool
    ensures { result ≡ spec.is_typedef_kind kind }
{
    match kind {
        Kind::Typedef => true,
        _ => false,
    }
}

fn tag_kind(kind: Kind) -> TagKind
    ensures { result ≡ spec.tag_kind kind }
{
    match kind {
        Kind::Struct => TagKind::Struct,
        Kind::Union => TagKind::Union,
        _ => TagKind::Enum,
    }
}

// Whether a declaration is of a tag at file scope.
fn is_file_tag(row: Row) -> bool
    ensures { result ≡ spec.is_file_tag_row row }
{
    match row.decl.space {
        Space::Tag => row.path == 0,
        _ => false,
    }
}

// The first declaration of a name that has linkage.
fn first_linked(rows: &[Row], name: Name) -> Option<usize>
    ensures { result ≡ position (is_linked_row name) rows.now }
{
    rows.iter()
        .position(|k| is_linked(k.decl.linkage) && k.decl.name.0 == name.0)
}

// The token of a declaration of a list.
fn token_at(rows: &[Row], n: Option<usize>, token: u32) -> u32
    ensures { result ≡ spec.token_at rows.now n token }
{
    match n {
        Some(n) => match rows.get(n) {
            Some(row) => row.decl.token,
            None => token,
        },
        None => token,
    }
}

// The key by a token: its place, or its number where preprocessing made it.
fn token_key(unit: u32, tokens: &[Tok], token: u32) -> Key
    requires { token < length tokens.now }
    ensures { result ≡ spec.key_in unit tokens.now token }
{
    match tokens[token as usize].origin {
        Origin::At(place) => Key::At(place),
        Origin::Made => Key::Made(unit, token),
    }
}

/// The numbers of the first declarations of the two names that have linkage (C11 6.2.2).
#[derive(Clone, Copy, Debug, PartialEq, Eq)]
pub struct Linked {
    pub old: Option<usize>,
    pub new: Option<usize>,
}

/// Finds the first declarations of the two names that have linkage.
pub fn linked_in(rows: &[Row], names: Names) -> Linked
    ensures { AreLinked rows.now names.old names.new result }
{
    Linked {
        old: first_linked(rows, names.old),
        new: first_linked(rows, names.new),
    }
}

// The first declaration that has linkage, of one of the two names.
fn linked_as(rows: &[Row], names: Names, linked: Linked, name: Name) -> Option<usize>
    requires linked { AreLinked rows.now names.old names.new linked }
    requires named { IsOneOf names.old names.new name }
    ensures { result ≡ position (is_linked_row name) rows.now }
{
    if is_same(name, names.old) {
        linked.old
    } else {
        linked.new
    }
}

// The token of the entity of a declaration that is the first of its slot.
fn row_token(rows: &[Row], names: Names, linked: Linked, row: Row) -> u32
    requires linked { AreLinked rows.now names.old names.new linked }
    requires named { IsOneOf names.old names.new row.decl.name }
    ensures { result ≡ spec.row_token rows.now row }
{
    if is_linked(row.decl.linkage) {
        token_at(
            rows,
            linked_as(rows, names, linked, row.decl.name),
            row.decl.token,
        )
    } else {
        row.decl.token
    }
}

// The key of a declaration that is the first of its slot.
fn first_key(
    alloc: Global,
    unit: u32,
    tokens: &[Tok],
    table: &NameTable,
    rows: &[Row],
    names: Names,
    linked: Linked,
    row: Row,
) -> Result<Key, OutOfMemory>
    requires spelled { AreSpelled table.now tokens.now rows.now }
    requires token { row.decl.token < length tokens.now }
    requires name { row.decl.name.0 < length table.now }
    requires linked { AreLinked rows.now names.old names.new linked }
    requires named { IsOneOf names.old names.new row.decl.name }
    ensures { IfOk result (λ k. k ≡ row_key unit table.now tokens.now rows.now row) }
{
    if is_external(row.decl.linkage) {
        let text = Text::new(alloc, table.text(row.decl.name))?;
        return Ok(Key::Ext(text));
    }
    if is_file_tag(row) {
        let text = Text::new(alloc, table.text(row.decl.name))?;
        return Ok(Key::Tag(tag_kind(row.decl.kind), text));
    }
    Ok(token_key(unit, tokens, row_token(rows, names, linked, row)))
}

// Whether a slot has a group.
fn has_group(groups: &IndexMap<Slot, Group>, slot: Slot) -> bool
    ensures { result ≡ is_some (find_group slot groups.now.entries) }
{
    group_at(groups, slot).is_some()
}

// Groups a declaration.
fn add_row(
    alloc: Global,
    groups: &mut IndexMap<Slot, Group>,
    unit: u32,
    tokens: &[Tok],
    table: &NameTable,
    rows: &[Row],
    names: Names,
    linked: Linked,
    n: usize,
    row: Row,
) -> Result<(), OutOfMemory>
    requires spelled { AreSpelled table.now tokens.now rows.now }
    requires there { slice_get rows.now n ≡ Some row }
    requires linked { AreLinked rows.now names.old names.new linked }
    ensures { OnOk result (AddsRow names.old names.new row
        (group_of unit table.now tokens.now rows.now n row) groups.old.entries groups.new.entries) }
{
    if !is_one_of(names, row.decl.name) {
        return Ok(());
    }
    let slot = Slot {
        path: row.path,
        space: row.decl.space,
        name: row.decl.name,
    };
    if has_group(groups, slot) {
        return Ok(());
    }
    let key = first_key(alloc, unit, tokens, table, rows, names, linked, row)?;
    let group = Group {
        first: n,
        is_typedef: is_typedef(row.decl.kind),
        key,
    };
    put(groups, slot, group)?;
    Ok(())
}

/// Groups the declarations of the two names by their slots: a group for each slot that has some.
///
/// The table has the spelling of each name, and each declaration has a token.
pub fn groups_of(
    alloc: Global,
    unit: u32,
    tokens: &[Tok],
    table: &NameTable,
    rows: &[Row],
    names: Names,
    linked: Linked,
) -> Result<IndexMap<Slot, Group>, OutOfMemory>
    requires spelled { AreSpelled table.now tokens.now rows.now }
    requires linked { AreLinked rows.now names.old names.new linked }
    ensures { IfOk result (λ groups. IsBuilt unit table.now tokens.now rows.now
        names.old names.new groups.entries (length rows.now)) }
{
    let mut groups = IndexMap::new(alloc);
    let mut i = 0;
    'each: while i < rows.len() {
        add_row(
            alloc,
            &mut groups,
            unit,
            tokens,
            table,
            rows,
            names,
            linked,
            i,
            rows[i],
        )?;
        i += 1;
    }
    Ok(groups)
}
