//! The entities that share declaring places with some.
ghost use Rattle.std.specs.Prelude.{◌≡◌, ◌↔◌, ◌<◌, ◌⊎◌, ℕ, Some, IfOk, OnOk, map, length, slice_get, get_or, true, false};
ghost use Rattle.std.specs.List.{Contains};
ghost use Rattle.std.specs.BTreeSet as tree;
ghost use Rattle.cr_base.specs.declared.key.Key.{Key as AnyKey};
ghost use Rattle.cr_class.specs.RenameClass.{key_cmp};
ghost use Rattle.cr_class.specs.Graph.{AreBelow};
ghost use Rattle.cr_class.specs.Sharing.{Shares, LinksEqual};

use crate::declarations::{Declarations, all_declarations};
use crate::graph::{leaders, link, no_links, reached};
use crate::sets::set_of;
use cr_base::{Key, OutOfMemory};
use cr_facts::{FactSet, facts_are_ordered};
use std::alloc::Global;
use std::collections::BTreeSet;

// Links the declarations of one key with each other, and those at one place.
fn links_of(alloc: Global, all: &Declarations) -> Result<Vec<Vec<usize>>, OutOfMemory>
    requires { length all.now.keys.items ≡ length all.now.places.items }
    ensures length { IfOk result (λ links. length links.items ≡ length all.now.keys.items) }
    ensures links { IfOk result (λ links. LinksEqual (map (λ k. k.now) all.now.keys.items) all.now.places.items (map (λ v. v.items) links.items)) }
{
    facts_are_ordered();
    let mut links = no_links(alloc, all.keys.len())?;
    let by_key = leaders(alloc, &all.keys)?;
    link(&mut links, &by_key)?;
    let by_place = leaders(alloc, &all.places)?;
    link(&mut links, &by_place)?;
    Ok(links)
}

// The declarations of known keys.
fn nodes_of(alloc: Global, keys: &[&Key], known: &BTreeSet<Key>) -> Result<Vec<usize>, OutOfMemory>
    ensures { IfOk result (λ nodes. (i : ℕ) → Contains nodes.items i ↔ ((k : AnyKey) × (slice_get (map (λ k. k.now) keys.now) i ≡ Some k) × (tree.contains key_cmp known.now k ≡ true))) }
{
    let mut nodes = Vec::new(alloc);
    for (i, key) in keys.iter().enumerate() {
        if known.contains(*key) {
            nodes.push(i)?;
        }
    }
    Ok(nodes)
}

// The keys of the declarations that are seen are known too.
fn add_seen(
    alloc: Global,
    known: &mut BTreeSet<Key>,
    keys: &[&Key],
    seen: &[bool],
) -> Result<(), OutOfMemory>
    requires { length keys.now ≡ length seen.now }
    ensures { OnOk result ((k : AnyKey) → (tree.contains key_cmp known.new k ≡ true)
        ↔ ((tree.contains key_cmp known.old k ≡ true) ⊎ ((i : ℕ) × (slice_get (map (λ k. k.now) keys.now) i ≡ Some k) × (get_or seen.now i false ≡ true)))) }
{
    facts_are_ordered();
    for (i, key) in keys.iter().enumerate() {
        if seen[i] {
            known.insert(key.copy(alloc)?)?;
        }
    }
    Ok(())
}

/// The least set that has some keys and every key that shares a declaring place with one in the set.
pub fn shared_keys(
    alloc: Global,
    facts: &FactSet,
    targets: Vec<Key>,
) -> Result<BTreeSet<Key>, OutOfMemory>
    ensures { IfOk result (λ keys. (k : AnyKey) → (tree.contains key_cmp keys k ≡ true) ↔ Shares facts.now targets.items k) }
{
    facts_are_ordered();
    let all = all_declarations(alloc, facts)?;
    let mut known = set_of(alloc, targets)?;
    let start = nodes_of(alloc, &all.keys, &known)?;
    let links = links_of(alloc, &all)?;
    let seen = reached(alloc, &links, start)?;
    add_seen(alloc, &mut known, &all.keys, &seen)?;
    Ok(known)
}
