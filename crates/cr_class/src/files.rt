//! What stands against a renaming in files and their paths.
ghost use Rattle.std.specs.Prelude.{◌≡◌, ◌≤◌, ◌<◌, ◌↔◌, ◌+◌, drop, length, true, IfOk};
ghost use Rattle.std.specs.Option.{option_map};
ghost use Rattle.std.specs.List.{Contains};
ghost use Rattle.cr_base.specs.Path as paths;
ghost use Rattle.cr_base.specs.declared.token.Place.{Place as AnyPlace};
ghost use Rattle.cr_snapshot.specs.Files.{finding};
ghost use Rattle.cr_snapshot.specs.IncludeSearch as search;
ghost use Rattle.cr_class.specs.ShownOrder.{path_of};
ghost use Rattle.cr_class.specs.Verdict as spec;

use crate::target::path_of;
use cr_base::{Name, Origin, OutOfMemory, PathText, Place, PpKind, PpTok};
use cr_lex::is_unspellable;
use cr_snapshot::{Found, Snapshot};
use std::alloc::Global;

fn is_rooted(path: &[u8]) -> bool
    ensures { result ≡ paths.is_rooted path.now }
{
    match path {
        [first, ..] => *first == b'/',
        [] => false,
    }
}

fn is_apart(path: &[u8]) -> bool
    ensures { result ≡ search.is_apart path.now }
{
    path.starts_with(b"//".as_slice())
}

fn ends_component(rest: &[u8]) -> bool
    ensures { result ≡ spec.ends_component rest.now }
{
    match rest {
        [] => true,
        [byte, ..] => *byte == b'/',
    }
}

fn is_below(root: &[u8], path: &[u8]) -> bool
    ensures { result ≡ spec.is_below root.now path.now }
{
    path.starts_with(root) && ends_component(&path[root.len()..])
}

fn is_inside(root: &[u8], path: &[u8]) -> bool
    ensures { result ≡ spec.is_inside root.now path.now }
{
    if root.is_empty() {
        return !is_rooted(path);
    }
    if root == b"/".as_slice() {
        return is_rooted(path);
    }
    is_below(root, path)
}

fn is_unwritable(snapshot: &Snapshot, root: Option<&PathText>, place: Place) -> bool
    ensures { result ≡ spec.is_unwritable_path (option_map (λ r. r.now) root.entry) (path_of snapshot.now place) }
{
    let path = path_of(snapshot, place);
    match root {
        None => is_apart(path),
        Some(root) => is_apart(path) || !is_inside(root.bytes(), path),
    }
}

/// The places that are in no file that may be written.
pub fn unwritable_places(
    alloc: Global,
    snapshot: &Snapshot,
    root: Option<&PathText>,
    places: &[Place],
) -> Result<Vec<Place>, OutOfMemory>
    ensures { IfOk result (λ found. (p : AnyPlace) → Contains found.items p
        ↔ (Contains places.now p × (spec.is_unwritable_path (option_map (λ r. r.now) root.entry) (path_of snapshot.now p) ≡ true))) }
{
    let mut found = Vec::new(alloc);
    for place in places {
        if is_unwritable(snapshot, root, *place) {
            found.push(*place)?;
        }
    }
    Ok(found)
}

// The bytes of the file at a path.
fn bytes_at<'a>(snapshot: &'a Snapshot, path: &PathText) -> &'a [u8]
    ensures bytes { result.now ≡ spec.present_bytes (finding path.now snapshot.now) }
    ensures small { length result.now ≤ 16777216 }
{
    match snapshot.get(path) {
        Found::Known(_, bytes) => bytes,
        _ => &[],
    }
}

// The bytes of the file of a place.
fn bytes_of(alloc: Global, snapshot: &Snapshot, place: Place) -> &[u8]
    ensures bytes { result.now ≡ spec.bytes_of snapshot.now place }
    ensures small { length result.now ≤ 16777216 }
{
    match snapshot.path_at(place.path) {
        Some(path) => bytes_at(snapshot, path),
        None => bytes_at(snapshot, &PathText::empty(alloc)),
    }
}

fn stands_at(name: &[u8], bytes: &[u8], at: usize) -> bool
    requires { at < 4294967296 }
    ensures { result ≡ spec.stands_at name.now bytes.now at }
{
    at + name.len() <= bytes.len() && bytes[at..].starts_with(name)
}

fn is_unspellable_at(old: &[u8], new: &[u8], bytes: &[u8], place: Place) -> bool
    requires { length bytes.now ≤ 16777216 }
    ensures { result ≡ spec.is_unspellable_at old.now new.now bytes.now place.offset }
{
    let at = place.offset as usize;
    if !stands_at(old, bytes, at) {
        return true;
    }
    let token = PpTok {
        kind: PpKind::Ident,
        text: Name(0),
        origin: Origin::At(place),
        site: place,
        line: 1,
        end: (at + old.len()) as u32,
        space: false,
        first: false,
        joined: false,
    };
    is_unspellable(bytes, new, token)
}

/// The places at which the new name can't be spelled in the place of the old one.
pub fn unspellable_places(
    alloc: Global,
    snapshot: &Snapshot,
    old: &[u8],
    new: &[u8],
    places: &[Place],
) -> Result<Vec<Place>, OutOfMemory>
    ensures { IfOk result (λ found. (p : AnyPlace) → Contains found.items p
        ↔ (Contains places.now p × (spec.is_unspellable_at old.now new.now (spec.bytes_of snapshot.now p) p.offset ≡ true))) }
{
    let mut found = Vec::new(alloc);
    for place in places {
        if is_unspellable_at(old, new, bytes_of(alloc, snapshot, *place), *place) {
            found.push(*place)?;
        }
    }
    Ok(found)
}
