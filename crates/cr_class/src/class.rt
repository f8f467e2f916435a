//! The class of a target.
ghost use Rattle.std.specs.Prelude.{◌≡◌, ◌↔◌, Err, IfOk, true};
ghost use Rattle.std.specs.List.{Contains};
ghost use Rattle.std.specs.List.Sorted.{IsStrictlySortedBy};
ghost use Rattle.std.specs.BTreeSet as tree;
ghost use Rattle.cr_base.specs.declared.key.Key.{Key as AnyKey};
ghost use Rattle.cr_base.specs.declared.token.Place.{Place as AnyPlace};
ghost use Rattle.cr_facts.specs.declared.fact.Fact.TheVariants as fact;
ghost use Rattle.cr_class.specs.RenameClass.{Has, InClass, IsTargetKey, IsRenamedPlace, AreKnown, key_cmp, place_cmp};
ghost use Rattle.cr_class.specs.Verdict.{KnowsClass};
ghost use Rattle.cr_class.specs.declared.class.ClassFault.TheVariants as fault;

use crate::sets::{listed, set_of};
use crate::sharing::shared_keys;
use crate::target::{Target, target_keys};
use cr_base::{Key, List, OutOfMemory, Place};
use cr_facts::{Fact, FactSet, facts_are_ordered};
use cr_snapshot::Snapshot;
use std::alloc::Global;
use std::collections::BTreeSet;

/// The entities that a rename takes together: their keys, and the places that denote one of them.
#[derive(Drop)]
pub struct Class {
    pub keys: List<Key>,
    pub places: List<Place>,
}

/// Why a target has no class.
#[derive(Clone, Copy, Debug, PartialEq, Eq)]
pub enum ClassFault {
    /// The target means no entity that can be renamed.
    NoSymbol,
    OutOfMemory,
}

impl From<OutOfMemory> for ClassFault {
    ghost use Rattle.std.specs.Prelude.{◌≡◌};
    ghost use Rattle.cr_class.specs.declared.class.ClassFault.TheVariants as fault;

    ghost from_gives = { λ _ e. e ≡ fault.OutOfMemory };

    fn from(_: OutOfMemory) -> Self {
        ClassFault::OutOfMemory
    }
}

// The places that denote an entity of the keys, rising.
fn places_of(
    alloc: Global,
    facts: &FactSet,
    keys: &BTreeSet<Key>,
) -> Result<Vec<Place>, OutOfMemory>
    ensures places { IfOk result (λ places. (p : AnyPlace) → Contains places.items p ↔ ((k : AnyKey) × (tree.contains key_cmp keys.now k ≡ true) × Has facts.now (fact.Denotes p k))) }
    ensures rising { IfOk result (λ places. IsStrictlySortedBy place_cmp places.items) }
{
    facts_are_ordered();
    let mut places = Vec::new(alloc);
    for fact in facts.iter() {
        if let Fact::Denotes(place, key) = fact {
            if keys.contains(key) {
                places.push(*place)?;
            }
        }
    }
    let set = set_of(alloc, places)?;
    let rising = listed(alloc, set)?;
    Ok(rising)
}

/// The class of a target over the facts of all units, for the old name. It is the least set that has the
/// target's keys and every key that shares a declaring place with one in the set. A target's keys are
/// those that it means and that have a kind other than a label (C11 6.2.1, 6.2.2). Keys and places rise,
/// each once, places by the number of their path. Where the snapshot knows the path of each fact, it
/// knows that of each place.
///
/// `NoSymbol` comes exactly where the target has no key.
pub fn class_of(
    alloc: Global,
    facts: &FactSet,
    snapshot: &Snapshot,
    old: &[u8],
    target: &Target,
) -> Result<Class, ClassFault>
    ensures keys { IfOk result (λ class. (k : AnyKey) → Contains class.keys k ↔ InClass snapshot.now facts.now old.now target.now k) }
    ensures keys_rise { IfOk result (λ class. IsStrictlySortedBy key_cmp class.keys) }
    ensures places { IfOk result (λ class. (p : AnyPlace) → Contains class.places p ↔ IsRenamedPlace snapshot.now facts.now old.now target.now p) }
    ensures places_rise { IfOk result (λ class. IsStrictlySortedBy place_cmp class.places) }
    ensures known { IfOk result (λ class. AreKnown snapshot.now facts.now → KnowsClass snapshot.now class) }
    ensures symbol { IfOk result (λ class. (k : AnyKey) × IsTargetKey snapshot.now facts.now old.now target.now k) }
    ensures no_symbol { result ≡ Err fault.NoSymbol → (k : AnyKey) → IsTargetKey snapshot.now facts.now old.now target.now k → ⊥ }
{
    facts_are_ordered();
    let targets = target_keys(alloc, facts, snapshot, old, target)?;
    if targets.is_empty() {
        return Err(ClassFault::NoSymbol);
    }
    let keys = shared_keys(alloc, facts, targets)?;
    let places = places_of(alloc, facts, &keys)?;
    let keys = listed(alloc, keys)?;
    Ok(Class {
        keys: List::of(keys),
        places: List::of(places),
    })
}
