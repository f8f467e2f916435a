//! How conflicts are found: by one or a few passes over what is visible under the two names.
ghost use Rattle.std.specs.Prelude.{◌≡◌, ◌↔◌, ◌⊎◌, ◌<◌, IsTrue, IfSome, IfOk, OnOk, MatchOption, Option, Some, option_map};
ghost use Rattle.cr_scope.specs.Declarations.{IsDeclNo};
ghost use Rattle.cr_scope.specs.Linkage.{has_linkage};
ghost use Rattle.cr_capture.specs.declared.Mention.TheVariants as mention;
ghost use Rattle.cr_capture.specs.Conflicts.{IsConflict, IsDenoted, IsVisible, IsTypeName, IsMeant, UncoversTypedef, TakesTypeName};
ghost use Rattle.cr_capture.specs.Finding as spec;

use crate::Mention;
use cr_base::{Kind, Name, OutOfMemory};
use cr_scope::{DeclNo, Linkage, Scopes, Space, lookup_means, visible_means};

/// The two names of a renaming.
#[derive(Clone, Copy)]
pub(crate) struct Names {
    pub(crate) old: Name,
    pub(crate) new: Name,
}

// Which of the declarations of a name are sought.
#[derive(Clone, Copy)]
pub(crate) enum Sort {
    Any,
    Typedef,
    Other,
}

type Found = Vec<(Option<DeclNo>, u32)>;

/// Adds the conflicts of a mention.
pub(crate) fn add_conflicts(
    found: &mut Found,
    scopes: &Scopes,
    names: Names,
    what: Mention,
) -> Result<(), OutOfMemory>
    requires { IsVisible scopes.now what }
    ensures { OnOk result (spec.Adds found.old.items found.new.items (λ x. IsConflict scopes.now names.old names.new x what)) }
{
    match what {
        Mention::Named(space, name, token, denoted) => {
            add_named(found, scopes, names, space, name, token, denoted)?;
            Ok(())
        }
        Mention::Asked(name, token, parameter) => {
            add_asked(found, scopes, names, name, token, parameter)?;
            Ok(())
        }
        Mention::Declared(d) => {
            add_declared(found, scopes, names, d)?;
            Ok(())
        }
    }
}

fn is_same(a: Name, b: Name) -> bool
    ensures { IsTrue result ↔ (a ≡ b) }
{
    a.0 == b.0
}

fn is_typedef(kind: Kind) -> bool
    ensures { result ≡ spec.is_typedef kind }
{
    match kind {
        Kind::Typedef => true,
        _ => false,
    }
}

fn is_of(kind: Kind, sort: Sort) -> bool
    ensures { result ≡ spec.is_of kind sort }
{
    match sort {
        Sort::Any => true,
        Sort::Typedef => is_typedef(kind),
        Sort::Other => !is_typedef(kind),
    }
}

fn is_over(depth: usize, than: Option<usize>) -> bool
    ensures { result ≡ spec.is_over depth than }
{
    match than {
        None => true,
        Some(than) => than < depth,
    }
}

// Whether a declaration is of a sort and stands deeper than a depth.
fn is_fit(scopes: &Scopes, d: DeclNo, sort: Sort, than: Option<usize>) -> bool
    requires { IsDeclNo scopes.now d }
    ensures { spec.IsFit scopes.now sort than d result }
{
    is_of(scopes.get(d).kind, sort) && is_over(scopes.depth(d), than)
}

// Adds the visible declarations of a name that are of a sort and stand deeper than a depth, each with the token.
fn add_sought(
    found: &mut Found,
    scopes: &Scopes,
    space: Space,
    name: Name,
    sort: Sort,
    than: Option<usize>,
    token: u32,
) -> Result<(), OutOfMemory>
    ensures { OnOk result (spec.Adds found.old.items found.new.items (spec.SoughtPair scopes.now space name sort than token)) }
{
    visible_means();
    for d in scopes.lookup_all(space, name) {
        if is_fit(scopes, d, sort, than) {
            found.push((Some(d), token))?;
        }
    }
    Ok(())
}

// The outermost depth at which a typedef of a name is visible.
fn outermost_typedef(scopes: &Scopes, name: Name) -> Option<usize>
    ensures { MatchOption result (spec.HasNoTypedef scopes.now name) (spec.IsOutermost scopes.now name) }
{
    visible_means();
    let mut outermost = None;
    for d in scopes.lookup_all(Space::Ordinary, name) {
        if is_typedef(scopes.get(d).kind) {
            outermost = Some(least(scopes.depth(d), outermost));
        }
    }
    outermost
}

fn least(depth: usize, other: Option<usize>) -> usize
    ensures { result ≡ spec.least depth other }
{
    match other {
        Some(n) if n < depth => n,
        _ => depth,
    }
}

// How deep the scope of a declaration is nested, where there is one.
fn depth_of(scopes: &Scopes, d: Option<DeclNo>) -> Option<usize>
    requires { IfSome d (IsDeclNo scopes.now) }
    ensures { spec.IsDepthOf scopes.now d result }
{
    match d {
        Some(d) => Some(scopes.depth(d)),
        None => None,
    }
}

// Whether the innermost declaration of a name is a typedef.
fn is_type_name(scopes: &Scopes, name: Name) -> bool
    ensures { IsTrue result ↔ IsTypeName scopes.now name }
{
    lookup_means();
    match scopes.lookup(Space::Ordinary, name) {
        Some(d) => is_typedef(scopes.get(d).kind),
        None => false,
    }
}

// Whether a name is visible in the scope of a denoted declaration or in a deeper one, or in any scope where none is
// denoted.
fn is_visible_from(scopes: &Scopes, space: Space, name: Name, denoted: Option<DeclNo>) -> bool
    requires { IfSome denoted (IsDeclNo scopes.now) }
    ensures { IsTrue result ↔ spec.IsVisibleFrom scopes.now space name denoted }
{
    lookup_means();
    match (scopes.lookup(space, name), denoted) {
        (None, _) => false,
        (Some(_), None) => true,
        (Some(n), Some(d)) => scopes.depth(d) <= scopes.depth(n),
    }
}

// Adds the conflicts of an identifier that is looked up.
fn add_named(
    found: &mut Found,
    scopes: &Scopes,
    names: Names,
    space: Space,
    name: Name,
    token: u32,
    denoted: Option<DeclNo>,
) -> Result<(), OutOfMemory>
    requires { IsDenoted scopes.now space name token denoted }
    ensures { OnOk result (spec.Adds found.old.items found.new.items (λ x. IsConflict scopes.now names.old names.new x (mention.Named space name token denoted))) }
{
    add_captured(found, scopes, names, space, name, token, denoted)?;
    add_hidden(found, scopes, names, space, name, token, denoted)?;
    Ok(())
}

// Adds the declarations of the old name that would capture a mention of the new one.
fn add_captured(
    found: &mut Found,
    scopes: &Scopes,
    names: Names,
    space: Space,
    name: Name,
    token: u32,
    denoted: Option<DeclNo>,
) -> Result<(), OutOfMemory>
    requires { IsDenoted scopes.now space name token denoted }
    ensures { OnOk result (spec.Adds found.old.items found.new.items (spec.CapturedPair scopes.now names.old names.new space name token denoted)) }
{
    if !is_same(name, names.new) {
        return Ok(());
    }
    let than = depth_of(scopes, denoted);
    add_sought(found, scopes, space, names.old, Sort::Any, than, token)?;
    Ok(())
}

// Adds what a mention of the old name means, where a declaration of the new one would hide it.
fn add_hidden(
    found: &mut Found,
    scopes: &Scopes,
    names: Names,
    space: Space,
    name: Name,
    token: u32,
    denoted: Option<DeclNo>,
) -> Result<(), OutOfMemory>
    requires { IsDenoted scopes.now space name token denoted }
    ensures { OnOk result (spec.Adds found.old.items found.new.items (spec.HiddenPair scopes.now names.old names.new space name token denoted)) }
{
    lookup_means();
    if !is_same(name, names.old) {
        return Ok(());
    }
    if !is_visible_from(scopes, space, names.new, denoted) {
        return Ok(());
    }
    if let Some(d) = meant(scopes, space, name, denoted) {
        found.push((Some(d), token))?;
    }
    Ok(())
}

// What a mention denotes, or the tag that it declares.
fn meant(scopes: &Scopes, space: Space, name: Name, denoted: Option<DeclNo>) -> Option<DeclNo>
    ensures { MatchOption result (spec.MeansNothing scopes.now space name denoted) (λ d. IsMeant scopes.now space name d denoted) }
{
    match denoted {
        Some(d) => Some(d),
        None => scopes.lookup(space, name),
    }
}

// Adds the conflicts of an identifier that was asked to be a typedef name, and is none.
fn add_asked(
    found: &mut Found,
    scopes: &Scopes,
    names: Names,
    name: Name,
    token: u32,
    parameter: bool,
) -> Result<(), OutOfMemory>
    ensures { OnOk result (spec.Adds found.old.items found.new.items (λ x. IsConflict scopes.now names.old names.new x (mention.Asked name token parameter))) }
{
    add_typedefs(found, scopes, names, name, token, parameter)?;
    add_uncovering(found, scopes, names.old, name, token)?;
    add_parameter(found, scopes, names, name, token, parameter)?;
    Ok(())
}

fn is_read_anew(names: Names, name: Name, parameter: bool) -> bool
    ensures { IsTrue result ↔ spec.IsReadAnew names.old names.new name parameter }
{
    is_same(name, names.new) || (parameter && is_same(name, names.old))
}

// Adds the typedefs of the old name that are deeper than all declarations of the new one.
fn add_typedefs(
    found: &mut Found,
    scopes: &Scopes,
    names: Names,
    name: Name,
    token: u32,
    parameter: bool,
) -> Result<(), OutOfMemory>
    ensures { OnOk result (spec.Adds found.old.items found.new.items (spec.TypedefPair scopes.now names.old names.new name token parameter)) }
{
    if !is_read_anew(names, name, parameter) {
        return Ok(());
    }
    let than = innermost(scopes, names.new);
    add_sought(
        found,
        scopes,
        Space::Ordinary,
        names.old,
        Sort::Typedef,
        than,
        token,
    )?;
    Ok(())
}

// The depth of the innermost visible declaration of a name.
fn innermost(scopes: &Scopes, name: Name) -> Option<usize>
    ensures { MatchOption result (spec.IsUnseen scopes.now name) (spec.IsInnermost scopes.now name) }
{
    lookup_means();
    match scopes.lookup(Space::Ordinary, name) {
        Some(d) => Some(scopes.depth(d)),
        None => None,
    }
}

// Adds the declarations of the old name that are no typedefs and deeper than a typedef of it.
fn add_uncovering(
    found: &mut Found,
    scopes: &Scopes,
    old: Name,
    name: Name,
    token: u32,
) -> Result<(), OutOfMemory>
    ensures { OnOk result (spec.Adds found.old.items found.new.items (UncoversTypedef scopes.now old name token)) }
{
    if !is_same(name, old) {
        return Ok(());
    }
    if let Some(than) = outermost_typedef(scopes, old) {
        add_sought(
            found,
            scopes,
            Space::Ordinary,
            old,
            Sort::Other,
            Some(than),
            token,
        )?;
    }
    Ok(())
}

// Adds the parameter that the token declares, where the new name is that of a typedef.
fn add_parameter(
    found: &mut Found,
    scopes: &Scopes,
    names: Names,
    name: Name,
    token: u32,
    parameter: bool,
) -> Result<(), OutOfMemory>
    ensures { OnOk result (spec.Adds found.old.items found.new.items (TakesTypeName scopes.now names.old names.new name token parameter)) }
{
    if !parameter {
        return Ok(());
    }
    if !is_same(name, names.old) {
        return Ok(());
    }
    if is_type_name(scopes, names.new) {
        found.push((None, token))?;
    }
    Ok(())
}

// Adds the conflicts of a declaration that is made.
fn add_declared(
    found: &mut Found,
    scopes: &Scopes,
    names: Names,
    d: DeclNo,
) -> Result<(), OutOfMemory>
    requires { IsVisible scopes.now (mention.Declared d) }
    ensures { OnOk result (spec.Adds found.old.items found.new.items (λ x. IsConflict scopes.now names.old names.new x (mention.Declared d))) }
{
    add_own(found, scopes, names, d)?;
    add_others(found, scopes, names, d)?;
    add_linked(found, scopes, names, d)?;
    Ok(())
}

// Adds a declaration of the old name for each one of the new name beside it.
fn add_own(found: &mut Found, scopes: &Scopes, names: Names, c: DeclNo) -> Result<(), OutOfMemory>
    requires { IsVisible scopes.now (mention.Declared c) }
    ensures { OnOk result (spec.Adds found.old.items found.new.items (spec.OwnCollision scopes.now names.old names.new c)) }
{
    if !is_same(scopes.get(c).name, names.old) {
        return Ok(());
    }
    add_beside(found, scopes, c, names.new, Some(c))?;
    Ok(())
}

// Adds the declarations of the old name beside a declaration of the new one.
fn add_others(
    found: &mut Found,
    scopes: &Scopes,
    names: Names,
    c: DeclNo,
) -> Result<(), OutOfMemory>
    requires { IsVisible scopes.now (mention.Declared c) }
    ensures { OnOk result (spec.Adds found.old.items found.new.items (spec.OtherCollision scopes.now names.old names.new c)) }
{
    if !is_same(scopes.get(c).name, names.new) {
        return Ok(());
    }
    add_beside(found, scopes, c, names.old, None)?;
    Ok(())
}

// Adds for each declaration of a name in the scope and space of c a pair with the later token. It names what it is
// given to name, else the declaration that was found.
fn add_beside(
    found: &mut Found,
    scopes: &Scopes,
    c: DeclNo,
    name: Name,
    named: Option<DeclNo>,
) -> Result<(), OutOfMemory>
    requires { IsVisible scopes.now (mention.Declared c) }
    ensures { OnOk result (spec.Adds found.old.items found.new.items (spec.BesidePair scopes.now c name named)) }
{
    visible_means();
    for d in scopes.lookup_all(scopes.get(c).space, name) {
        if scopes.depth(d) == scopes.depth(c) {
            let token = later_token(scopes, c, d);
            found.push((Some(named.unwrap_or(d)), token))?;
        }
    }
    Ok(())
}

// The later one of the tokens of two declarations.
fn later_token(scopes: &Scopes, c: DeclNo, d: DeclNo) -> u32
    requires first { IsDeclNo scopes.now c }
    requires second { IsDeclNo scopes.now d }
    ensures { spec.IsLater scopes.now c d result }
{
    scopes.get(c).token.max(scopes.get(d).token)
}

fn is_linked(linkage: Linkage) -> bool
    ensures { result ≡ has_linkage linkage }
{
    match linkage {
        Linkage::None => false,
        Linkage::Internal | Linkage::External => true,
    }
}

// Whether a declaration has linkage, under one of the two names.
fn is_linked_as(scopes: &Scopes, names: Names, c: DeclNo) -> bool
    requires { IsDeclNo scopes.now c }
    ensures { IsTrue result ↔ spec.IsLinkedAs scopes.now names.old names.new c }
{
    let decl = scopes.get(c);
    is_linked(decl.linkage) && (is_same(decl.name, names.old) || is_same(decl.name, names.new))
}

// Where both names have linkage, and a declaration has it under one of them, adds the first declaration of the old name
// that has it.
fn add_linked(
    found: &mut Found,
    scopes: &Scopes,
    names: Names,
    c: DeclNo,
) -> Result<(), OutOfMemory>
    requires { IsDeclNo scopes.now c }
    ensures { OnOk result (spec.Adds found.old.items found.new.items (spec.LinkedCollision scopes.now names.old names.new c)) }
{
    if !is_linked_as(scopes, names, c) {
        return Ok(());
    }
    add_first_linked(found, scopes, names)?;
    Ok(())
}

// Where both names have linkage, adds the first declaration of the old one that has it.
fn add_first_linked(found: &mut Found, scopes: &Scopes, names: Names) -> Result<(), OutOfMemory>
    ensures { OnOk result (spec.Adds found.old.items found.new.items (spec.LinkedPair scopes.now names.old names.new)) }
{
    if let (Some(d), Some(other)) = (scopes.linked(names.old), scopes.linked(names.new)) {
        let token = later_token(scopes, d, other);
        found.push((Some(d), token))?;
    }
    Ok(())
}
