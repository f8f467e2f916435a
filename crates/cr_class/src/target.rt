//! What a target means.
ghost use Rattle.std.specs.Prelude.{◌≡◌, ◌≢◌, ◌↔◌, ◌<◌, ◌&&◌, ◌∷◌, [], Option, Some, None, IfOk, MatchOption, true, length};
ghost use Rattle.std.specs.Option.{option_map, option_copied};
ghost use Rattle.std.specs.List.{Contains};
ghost use Rattle.std.specs.FinSet.{contains};
ghost use Rattle.std.specs.declared.cmp.Ordering.TheVariants.{Less, Equal};
ghost use Rattle.std.specs.Ordering.{is_eq};
ghost use Rattle.cr_base.specs.declared.key.Key.{Key as AnyKey};
ghost use Rattle.cr_base.specs.declared.token.Place.{Place as AnyPlace};
ghost use Rattle.cr_facts.specs.declared.fact.Fact.TheVariants as fact;
ghost use Rattle.cr_class.specs.RenameClass as spec;
ghost use Rattle.cr_class.specs.RenameClass.{Has, IsTargetKey, MeansOrdinary, MeansInternal, DeclaresFileScope, IsFirstPlace, key_cmp};
ghost use Rattle.cr_class.specs.ShownOrder as shown;
ghost use Rattle.cr_class.specs.Declarations.{lesser};

use crate::kinds::{is_file_scope, is_renamable};
use cr_base::{Key, OutOfMemory, Place, RecordKey, TagKind, Text};
use cr_facts::{Fact, FactSet, facts_are_ordered};
use cr_snapshot::Snapshot;
use std::alloc::Global;
use std::cmp::Ordering;

/// What is to be renamed: what the identifier at a place denotes; an ordinary identifier; a tag of file
/// scope; a member declared in the record with a tag of file scope (C11 6.2.3).
#[derive(Drop)]
pub enum Target {
    At(Place),
    Ordinary,
    Tagged(TagKind),
    MemberOf(TagKind, Text),
}

/// The path of a place, or nothing where no path has its number.
pub fn path_of(snapshot: &Snapshot, place: Place) -> &[u8]
    ensures { result.now ≡ shown.path_of snapshot.now place }
{
    match snapshot.path_at(place.path) {
        Some(path) => path.bytes(),
        None => &[],
    }
}

/// The order of two places in which they are shown: by the bytes of their paths, then by offset.
pub fn compare_shown(snapshot: &Snapshot, one: Place, other: Place) -> Ordering
    ensures { result ≡ shown.shown_cmp snapshot.now one other }
{
    let paths = path_of(snapshot, one).cmp(path_of(snapshot, other));
    paths.then(one.offset.cmp(&other.offset))
}

/// The one of two places that is shown first, or the second where there is no first.
pub fn first_shown(snapshot: &Snapshot, best: Option<Place>, place: Place) -> Place
    ensures { result ≡ lesser (shown.shown_cmp snapshot.now) best place }
{
    match best {
        None => place,
        Some(best) => {
            if compare_shown(snapshot, place, best) == Ordering::Less {
                place
            } else {
                best
            }
        }
    }
}

// The first place that declares an ordinary identifier of file scope.
fn first_place(
    alloc: Global,
    facts: &FactSet,
    snapshot: &Snapshot,
) -> Result<Option<Place>, OutOfMemory>
    ensures none { IfOk result (λ best. best ≡ None → (k : AnyKey) (p : AnyPlace) → DeclaresFileScope facts.now k p → ⊥) }
    ensures first { IfOk result (λ best. (p : AnyPlace) → best ≡ Some p → ((k : AnyKey) × DeclaresFileScope facts.now k p) × IsFirstPlace snapshot.now facts.now p) }
{
    facts_are_ordered();
    let mut best = None;
    for fact in facts.iter() {
        if let Fact::Declares(key, place) = fact {
            if is_file_scope(alloc, facts, key)? {
                best = Some(first_shown(snapshot, best, *place));
            }
        }
    }
    Ok(best)
}

// Whether the entity of the key can be renamed and the place denotes it.
fn is_denoted(alloc: Global, facts: &FactSet, place: Place, key: &Key) -> Result<bool, OutOfMemory>
    ensures { IfOk result (λ is. is ≡ (spec.is_renamable facts.now key.now && contains facts.now (fact.Denotes place key.now))) }
{
    if !is_renamable(alloc, facts, key)? {
        return Ok(false);
    }
    let fact = Fact::Denotes(place, key.copy(alloc)?);
    Ok(facts.contains(&fact))
}

// The entities that a place denotes and that can be renamed.
fn denoted_keys(alloc: Global, facts: &FactSet, place: Place) -> Result<Vec<Key>, OutOfMemory>
    ensures { IfOk result (λ keys. (k : AnyKey) → Contains keys.items k ↔ (Has facts.now (fact.Denotes place k) × (spec.is_renamable facts.now k ≡ true))) }
{
    facts_are_ordered();
    let mut keys = Vec::new(alloc);
    for fact in facts.iter() {
        if let Fact::OfKind(key, _) = fact {
            if is_denoted(alloc, facts, place, key)? {
                keys.push(key.copy(alloc)?)?;
            }
        }
    }
    Ok(keys)
}

// Whether the place is shown where the first one is and declares an ordinary identifier of file scope.
fn is_shown_at(
    alloc: Global,
    facts: &FactSet,
    snapshot: &Snapshot,
    first: Place,
    key: &Key,
    place: Place,
) -> Result<bool, OutOfMemory>
    ensures { IfOk result (λ is. is ≡ (spec.is_file_scope facts.now key.now && is_eq (shown.shown_cmp snapshot.now place first))) }
{
    if !is_file_scope(alloc, facts, key)? {
        return Ok(false);
    }
    Ok(compare_shown(snapshot, place, first) == Ordering::Equal)
}

// The ordinary identifiers of file scope that are declared where the first one is.
fn keys_at(
    alloc: Global,
    facts: &FactSet,
    snapshot: &Snapshot,
    first: Place,
) -> Result<Vec<Key>, OutOfMemory>
    ensures { IfOk result (λ keys. (k : AnyKey) → Contains keys.items k ↔ ((p : AnyPlace) × DeclaresFileScope facts.now k p × (shown.shown_cmp snapshot.now p first ≡ Equal))) }
{
    facts_are_ordered();
    let mut keys = Vec::new(alloc);
    for fact in facts.iter() {
        if let Fact::Declares(key, place) = fact {
            if is_shown_at(alloc, facts, snapshot, first, key, *place)? {
                keys.push(key.copy(alloc)?)?;
            }
        }
    }
    Ok(keys)
}

fn lesser_key<'a>(best: Option<&'a Key>, key: &'a Key) -> &'a Key
    ensures { result.now ≡ lesser key_cmp (option_map (λ k. k.now) best.entry) key.now }
{
    match best {
        None => key,
        Some(best) => { if *key < *best { key } else { best } }
    }
}

// The least key of an ordinary identifier of file scope.
fn least_key<'a>(alloc: Global, facts: &'a FactSet) -> Result<Option<&'a Key>, OutOfMemory>
    ensures none { IfOk result (λ best. option_copied best ≡ None → (k : AnyKey) → spec.is_file_scope facts.now k ≡ true → ⊥) }
    ensures least { IfOk result (λ best. (k : AnyKey) → option_copied best ≡ Some k → (spec.is_file_scope facts.now k ≡ true)
        × ((l : AnyKey) → spec.is_file_scope facts.now l ≡ true → key_cmp l k ≢ Less)) }
{
    facts_are_ordered();
    let mut best = None;
    for fact in facts.iter() {
        if let Fact::FileScope(key) = fact {
            if is_file_scope(alloc, facts, key)? {
                best = Some(lesser_key(best, key));
            }
        }
    }
    Ok(best)
}

fn one_key(alloc: Global, key: Key) -> Result<Vec<Key>, OutOfMemory>
    ensures { IfOk result (λ keys. keys.items ≡ key ∷ []) }
{
    let mut keys = Vec::new(alloc);
    keys.push(key)?;
    Ok(keys)
}

// The ordinary identifiers of file scope among which none has external linkage.
fn internal_keys(
    alloc: Global,
    facts: &FactSet,
    snapshot: &Snapshot,
) -> Result<Vec<Key>, OutOfMemory>
    ensures { IfOk result (λ keys. (k : AnyKey) → Contains keys.items k ↔ MeansInternal snapshot.now facts.now k) }
{
    facts_are_ordered();
    if let Some(place) = first_place(alloc, facts, snapshot)? {
        let keys = keys_at(alloc, facts, snapshot, place)?;
        return Ok(keys);
    }
    match least_key(alloc, facts)? {
        None => Ok(Vec::new(alloc)),
        Some(key) => {
            let keys = one_key(alloc, key.copy(alloc)?)?;
            Ok(keys)
        }
    }
}

// The entities that an ordinary name means.
fn ordinary_keys(
    alloc: Global,
    facts: &FactSet,
    snapshot: &Snapshot,
    old: &[u8],
) -> Result<Vec<Key>, OutOfMemory>
    ensures { IfOk result (λ keys. (k : AnyKey) → Contains keys.items k ↔ MeansOrdinary snapshot.now facts.now old.now k) }
{
    let external = Key::Ext(Text::new(alloc, old)?);
    if is_renamable(alloc, facts, &external)? {
        let keys = one_key(alloc, external)?;
        return Ok(keys);
    }
    let keys = internal_keys(alloc, facts, snapshot)?;
    Ok(keys)
}

// The key, where its entity can be renamed.
fn if_renamable(alloc: Global, facts: &FactSet, key: Key) -> Result<Vec<Key>, OutOfMemory>
    ensures { IfOk result (λ keys. (k : AnyKey) → Contains keys.items k ↔ ((k ≡ key) × (spec.is_renamable facts.now k ≡ true))) }
{
    if !is_renamable(alloc, facts, &key)? {
        return Ok(Vec::new(alloc));
    }
    let keys = one_key(alloc, key)?;
    Ok(keys)
}

/// The entities that a target means and that can be renamed.
pub fn target_keys(
    alloc: Global,
    facts: &FactSet,
    snapshot: &Snapshot,
    old: &[u8],
    target: &Target,
) -> Result<Vec<Key>, OutOfMemory>
    ensures { IfOk result (λ keys. (k : AnyKey) → Contains keys.items k ↔ IsTargetKey snapshot.now facts.now old.now target.now k) }
{
    match target {
        Target::At(place) => denoted_keys(alloc, facts, *place),
        Target::Ordinary => ordinary_keys(alloc, facts, snapshot, old),
        Target::Tagged(kind) => {
            let key = Key::Tag(*kind, Text::new(alloc, old)?);
            if_renamable(alloc, facts, key)
        }
        Target::MemberOf(kind, tag) => {
            let record = RecordKey::Tag(*kind, tag.copy(alloc)?);
            let key = Key::Member(record, Text::new(alloc, old)?);
            if_renamable(alloc, facts, key)
        }
    }
}
