//! Where facts say that an entity is denoted.
ghost use Rattle.std.specs.Prelude.{◌≡◌, ℕ, List, [], Some, length, map, slice_get, IfOk, OnOk};
ghost use Rattle.cr_small_facts.specs.Filing as spec;
ghost use Rattle.cr_small_facts.specs.Places.{ArePlaces};

use cr_base::{Key, OutOfMemory, Place};
use cr_facts::{Fact, FactSet, facts_are_ordered};
use std::alloc::Global;

/// For each file below a number the offsets at which the entity of the key is denoted, in bytes from 0.
/// They rise.
pub fn places_by_file(
    alloc: Global,
    facts: &FactSet,
    key: &Key,
    files: usize,
) -> Result<Vec<Vec<usize>>, OutOfMemory>
    ensures length { IfOk result (λ places. length places.items ≡ files) }
    ensures places { IfOk result (λ places. (n : ℕ) (offsets : List ℕ) → slice_get (map (λ v. v.items) places.items) n ≡ Some offsets → ArePlaces facts.now n key.now offsets) }
{
    facts_are_ordered();
    let mut places = no_places(alloc, files)?;
    for fact in facts.iter() {
        if let Some(place) = place_of(fact, key) {
            put(&mut places, place)?;
        }
    }
    Ok(places)
}

// An empty list for each file.
fn no_places(alloc: Global, files: usize) -> Result<Vec<Vec<usize>>, OutOfMemory>
    ensures length { IfOk result (λ places. length places.items ≡ files) }
    ensures empty { IfOk result (λ places. (n : ℕ) (offsets : List ℕ) → slice_get (map (λ v. v.items) places.items) n ≡ Some offsets → offsets ≡ []) }
{
    let mut places = Vec::with_capacity(alloc, files)?;
    for _ in 0..files {
        places.push(Vec::new(alloc))?;
    }
    Ok(places)
}

// The place at which the fact says that the entity of the key is denoted.
fn place_of(fact: &Fact, key: &Key) -> Option<Place>
    ensures { result ≡ spec.place_of key.now fact.now }
{
    match fact {
        Fact::Denotes(place, known) if known == key => Some(*place),
        _ => None,
    }
}

// One more place, in the list of its file. A place in any other file is passed over.
fn put(places: &mut Vec<Vec<usize>>, place: Place) -> Result<(), OutOfMemory>
    ensures { OnOk result (map (λ v. v.items) places.new.items ≡ spec.with_place place (map (λ v. v.items) places.old.items)) }
{
    let file = place.path.0 as usize;
    if file < places.len() {
        places[file].push(place.offset as usize)?;
    }
    Ok(())
}
