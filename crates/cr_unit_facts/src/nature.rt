//! The kinds of entities, and whether they are declared at file scope.
ghost use Rattle.std.specs.Prelude.{◌≡◌, cond, position, Some, None};
ghost use Rattle.cr_scope.specs.Linkage.{has_linkage};
ghost use Rattle.cr_groups.specs.Built.{is_linked_row};
ghost use Rattle.cr_unit_facts.specs.Occurring as spec;

use cr_base::{Kind, Name};
use cr_declared::Row;
use cr_groups::is_same;
use cr_scope::Linkage;

/// What the declarations of an entity are: one or two kinds, or none, and whether one stands at file scope.
#[derive(Clone, Copy, Debug, PartialEq, Eq)]
pub struct Nature {
    pub kind: Option<Kind>,
    pub other: Option<Kind>,
    pub file_scope: bool,
}

fn is_linked(linkage: Linkage) -> bool
    ensures { result ≡ has_linkage linkage }
{
    match linkage {
        Linkage::None => false,
        Linkage::Internal | Linkage::External => true,
    }
}

fn is_linked_as(row: &Row, name: Name) -> bool
    ensures { result ≡ is_linked_row name row.now }
{
    is_linked(row.decl.linkage) && row.decl.name.0 == name.0
}

fn is_function(kind: Kind) -> bool
    ensures { result ≡ spec.is_function kind }
{
    match kind {
        Kind::Function => true,
        _ => false,
    }
}

fn is_object(kind: Kind) -> bool
    ensures { result ≡ spec.is_object kind }
{
    match kind {
        Kind::Object => true,
        _ => false,
    }
}

// A kind, where it is there.
fn if_there(there: bool, kind: Kind) -> Option<Kind>
    ensures { result ≡ cond there (Some kind) None }
{
    if there { Some(kind) } else { None }
}

// The first declaration of a name with linkage that is of a function.
fn first_function(rows: &[Row], name: Name) -> Option<usize>
    ensures { result ≡ position (spec.is_linked_function name) rows.now }
{
    rows.iter()
        .position(|x| is_linked_as(x, name) && is_function(x.decl.kind))
}

// The first declaration of a name with linkage that is of an object.
fn first_object(rows: &[Row], name: Name) -> Option<usize>
    ensures { result ≡ position (spec.is_linked_object name) rows.now }
{
    rows.iter()
        .position(|x| is_linked_as(x, name) && is_object(x.decl.kind))
}

// The first declaration of a name with linkage at file scope.
fn first_at_file_scope(rows: &[Row], name: Name) -> Option<usize>
    ensures { result ≡ position (spec.is_linked_outside name) rows.now }
{
    rows.iter()
        .position(|x| is_linked_as(x, name) && x.path == 0)
}

/// The nature of what has a name with linkage (C11 6.2.2).
pub fn linked_nature(rows: &[Row], name: Name) -> Nature
    ensures { result ≡ spec.linked_nature name rows.now }
{
    let function = first_function(rows, name).is_some();
    let object = first_object(rows, name).is_some();
    let file_scope = first_at_file_scope(rows, name).is_some();
    Nature {
        kind: if_there(function, Kind::Function),
        other: if_there(object, Kind::Object),
        file_scope,
    }
}

/// The nature of what a declaration declares, by that of what has its name with linkage.
pub fn nature_of(linked: Nature, row: Row) -> Nature
    ensures { result ≡ spec.nature_of linked row }
{
    if is_linked(row.decl.linkage) {
        return linked;
    }
    Nature {
        kind: Some(row.decl.kind),
        other: None,
        file_scope: row.path == 0,
    }
}
