//! What a verdict is asked of.
ghost use Rattle.std.specs.Prelude.{◌≡◌, IfOk};
ghost use Rattle.std.specs.BTreeSet as tree;
ghost use Rattle.cr_base.specs.declared.key.Key.{Key as AnyKey};
ghost use Rattle.cr_base.specs.declared.token.Place.{Place as AnyPlace};
ghost use Rattle.cr_class.specs.RenameClass.{key_cmp, place_cmp};
ghost use Rattle.cr_class.specs.Verdict.{is_in_class, is_renamed};

use crate::class::Class;
use crate::sets::set_of;
use cr_base::{Key, OutOfMemory, PathText, Place};
use cr_facts::FactSet;
use cr_snapshot::Snapshot;
use std::alloc::Global;
use std::collections::BTreeSet;

/// Whether the entities of a class may have the new name in the place of the old one.
#[derive(Clone, Copy)]
pub struct Question<'a> {
    pub facts: &'a FactSet,
    pub class: &'a Class,
    pub snapshot: &'a Snapshot,
    pub root: Option<&'a PathText>,
    pub old: &'a [u8],
    pub new: &'a [u8],
}

/// The keys and places of a class as sets.
#[derive(Drop)]
pub struct Members {
    pub keys: BTreeSet<Key>,
    pub places: BTreeSet<Place>,
}

fn copied_keys(alloc: Global, keys: &[Key]) -> Result<Vec<Key>, OutOfMemory>
    ensures { IfOk result (λ copies. copies.items ≡ keys.now) }
{
    let mut copies = Vec::with_capacity(alloc, keys.len())?;
    for key in keys {
        copies.push(key.copy(alloc)?)?;
    }
    Ok(copies)
}

pub fn copied_places(alloc: Global, places: &[Place]) -> Result<Vec<Place>, OutOfMemory>
    ensures { IfOk result (λ copies. copies.items ≡ places.now) }
{
    let mut copies = Vec::new(alloc);
    copies.extend_from_slice(places)?;
    Ok(copies)
}

/// The keys and places of a class as sets.
pub fn members_of(alloc: Global, class: &Class) -> Result<Members, OutOfMemory>
    ensures keys { IfOk result (λ members. (k : AnyKey) → tree.contains key_cmp members.keys k ≡ is_in_class class.now k) }
    ensures places { IfOk result (λ members. (p : AnyPlace) → tree.contains place_cmp members.places p ≡ is_renamed class.now p) }
{
    let copies = copied_keys(alloc, class.keys.items())?;
    let keys = set_of(alloc, copies)?;
    let copies = copied_places(alloc, class.places.items())?;
    let places = set_of(alloc, copies)?;
    Ok(Members { keys, places })
}
