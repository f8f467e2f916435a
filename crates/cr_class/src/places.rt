//! The places at which facts stand against a renaming.
ghost use Rattle.std.specs.Prelude.{◌≡◌, ◌↔◌, Option, Some, IfOk};
ghost use Rattle.std.specs.List.{Contains, list_any};
ghost use Rattle.std.specs.FinSet.{contains};
ghost use Rattle.std.specs.BTreeSet as tree;
ghost use Rattle.cr_base.specs.declared.token.Place.{Place as AnyPlace};
ghost use Rattle.cr_facts.specs.declared.fact.Fact.TheVariants as fact;
ghost use Rattle.cr_class.specs.declared.uses.Use.{Use as AnyUse};
ghost use Rattle.cr_class.specs.RenameClass.{key_cmp, place_cmp};
ghost use Rattle.cr_class.specs.Verdict as spec;
ghost use Rattle.cr_class.specs.Verdict.{IsGiven};

use crate::question::Members;
use crate::uses::Use;
use cr_base::{Key, OutOfMemory, Place, Role, Text};
use cr_facts::{Fact, FactSet, facts_are_ordered};
use std::alloc::Global;

/// The places of macros of the new name.
pub fn macro_places(alloc: Global, facts: &FactSet) -> Result<Vec<Place>, OutOfMemory>
    ensures { IfOk result (λ places. (p : AnyPlace) → Contains places.items p ↔ IsGiven spec.macro_place facts.now p) }
{
    facts_are_ordered();
    let mut places = Vec::new(alloc);
    for fact in facts.iter() {
        if let Fact::NewMacro(place) = fact {
            places.push(*place)?;
        }
    }
    Ok(places)
}

fn is_mixed_role(role: Role) -> bool
    ensures { result ≡ spec.is_mixed_role role }
{
    match role {
        Role::MacroName | Role::Param | Role::Controlling | Role::Directive => true,
        _ => false,
    }
}

fn is_made_role(role: Role) -> bool
    ensures { result ≡ spec.is_made_role role }
{
    match role {
        Role::Stringized | Role::Pasted => true,
        _ => false,
    }
}

// What a fact says that a place of the class is taken for beside the class.
fn mixed_use(members: &Members, fact: &Fact) -> Option<Use>
    ensures { result ≡ spec.mixed_use (tree.contains key_cmp members.now.keys) (tree.contains place_cmp members.now.places) fact.now }
{
    match fact {
        Fact::Denotes(place, key)
            if members.places.contains(place) && !members.keys.contains(key) => {
            Some(Use {
                place: *place,
                role: Role::Final,
            })
        }
        Fact::HasRole(place, role) if members.places.contains(place) && is_mixed_role(*role) => {
            Some(Use {
                place: *place,
                role: *role,
            })
        }
        _ => None,
    }
}

/// What the places of a class are taken for beside the class.
pub fn mixed_uses(
    alloc: Global,
    facts: &FactSet,
    members: &Members,
) -> Result<Vec<Use>, OutOfMemory>
    ensures { IfOk result (λ uses. (u : AnyUse) → Contains uses.items u
        ↔ IsGiven (spec.mixed_use (tree.contains key_cmp members.now.keys) (tree.contains place_cmp members.now.places)) facts.now u) }
{
    facts_are_ordered();
    let mut uses = Vec::new(alloc);
    for fact in facts.iter() {
        if let Some(mixed) = mixed_use(members, fact) {
            uses.push(mixed)?;
        }
    }
    Ok(uses)
}

// The place of a fact on a made token of the class, or on a place of which one is made.
fn made_place(members: &Members, fact: &Fact) -> Option<Place>
    ensures { result ≡ spec.made_place (tree.contains key_cmp members.now.keys) (tree.contains place_cmp members.now.places) fact.now }
{
    match fact {
        Fact::MadeDenotes(key, place) if members.keys.contains(key) => Some(*place),
        Fact::HasRole(place, role) if members.places.contains(place) && is_made_role(*role) => {
            Some(*place)
        }
        _ => None,
    }
}

/// The places of made tokens of a class, and those of which a string or a token is made.
pub fn made_places(
    alloc: Global,
    facts: &FactSet,
    members: &Members,
) -> Result<Vec<Place>, OutOfMemory>
    ensures { IfOk result (λ places. (p : AnyPlace) → Contains places.items p
        ↔ IsGiven (spec.made_place (tree.contains key_cmp members.now.keys) (tree.contains place_cmp members.now.places)) facts.now p) }
{
    facts_are_ordered();
    let mut places = Vec::new(alloc);
    for fact in facts.iter() {
        if let Some(place) = made_place(members, fact) {
            places.push(place)?;
        }
    }
    Ok(places)
}

/// The places at which a pragma or an attribute has one of the names.
pub fn opaque_places(alloc: Global, facts: &FactSet) -> Result<Vec<Place>, OutOfMemory>
    ensures { IfOk result (λ places. (p : AnyPlace) → Contains places.items p ↔ IsGiven spec.opaque_place facts.now p) }
{
    facts_are_ordered();
    let mut places = Vec::new(alloc);
    for fact in facts.iter() {
        if let Fact::OpaqueAt(place) = fact {
            places.push(*place)?;
        }
    }
    Ok(places)
}

// The key of an entity with the new name in the place of its own.
fn renamed_key(alloc: Global, new: &[u8], key: &Key) -> Result<Key, OutOfMemory>
    ensures { IfOk result (λ renamed. renamed ≡ spec.renamed_key new.now key.now) }
{
    Ok(match key {
        Key::Ext(_) => Key::Ext(Text::new(alloc, new)?),
        Key::Tag(kind, _) => Key::Tag(*kind, Text::new(alloc, new)?),
        Key::Member(record, _) => Key::Member(record.copy(alloc)?, Text::new(alloc, new)?),
        Key::At(place) => Key::At(*place),
        Key::Made(unit, token) => Key::Made(*unit, *token),
    })
}

// Whether the entity of the key would become one that has the new name.
fn becomes_another(
    alloc: Global,
    facts: &FactSet,
    new: &[u8],
    key: &Key,
) -> Result<bool, OutOfMemory>
    ensures { IfOk result (λ is. is ≡ contains facts.now (fact.NewKey (spec.renamed_key new.now key.now))) }
{
    let fact = Fact::NewKey(renamed_key(alloc, new, key)?);
    Ok(facts.contains(&fact))
}

/// Whether one of the entities would become one with another.
pub fn has_clash(
    alloc: Global,
    facts: &FactSet,
    keys: &[Key],
    new: &[u8],
) -> Result<bool, OutOfMemory>
    ensures { IfOk result (λ is. is ≡ list_any (λ k. contains facts.now (fact.NewKey (spec.renamed_key new.now k))) keys.now) }
{
    match keys {
        [] => Ok(false),
        [key, rest @ ..] => {
            if becomes_another(alloc, facts, new, key)? {
                return Ok(true);
            }
            has_clash(alloc, facts, rest, new)
        }
    }
}

// The place at which a fact says that a name would denote something else.
fn capture_place(members: &Members, fact: &Fact) -> Option<Place>
    ensures { result ≡ spec.capture_place (tree.contains key_cmp members.now.keys) (tree.contains place_cmp members.now.places) fact.now }
{
    match fact {
        Fact::Conflict(key, place) if members.keys.contains(key) => Some(*place),
        Fact::BodyParam(place) if members.places.contains(place) => Some(*place),
        _ => None,
    }
}

/// The places at which a name would denote something else.
pub fn capture_places(
    alloc: Global,
    facts: &FactSet,
    members: &Members,
) -> Result<Vec<Place>, OutOfMemory>
    ensures { IfOk result (λ places. (p : AnyPlace) → Contains places.items p
        ↔ IsGiven (spec.capture_place (tree.contains key_cmp members.now.keys) (tree.contains place_cmp members.now.places)) facts.now p) }
{
    facts_are_ordered();
    let mut places = Vec::new(alloc);
    for fact in facts.iter() {
        if let Some(place) = capture_place(members, fact) {
            places.push(place)?;
        }
    }
    Ok(places)
}
