//! Which nodes of a graph are reached from some of them.
ghost use Rattle.std.specs.Prelude.{◌≡◌, ◌<◌, ℕ, List, [], Some, length, map, get_or, slice_get, IfOk, OnOk, true, false};
ghost use Rattle.std.specs.declared.cmp.Ordering.TheVariants.{Equal};
ghost use Rattle.std.specs.BTreeMap.{get_by};
ghost use Rattle.cr_class.specs.Graph.{Reaches, AreBelow, IsGraph, AreLinked, IsFirst, linked_with, with_link};

use cr_base::OutOfMemory;
use std::alloc::Global;
use std::collections::BTreeMap;

/// For each item the number of the first one that is equal to it.
pub fn leaders<T: Ord>(alloc: Global, items: &[T]) -> Result<Vec<usize>, OutOfMemory>
    ensures length { IfOk result (λ leaders. length leaders.items ≡ length items.now) }
    ensures below { IfOk result (λ leaders. AreBelow (length items.now) leaders.items) }
    ensures equal { IfOk result (λ leaders. (i : ℕ) (x : T) → slice_get items.now i ≡ Some x → (y : T) × (slice_get items.now (get_or leaders.items i 0) ≡ Some y) × (T.cmp x y ≡ Equal)) }
    ensures one { IfOk result (λ leaders. (i j : ℕ) (x y : T) → slice_get items.now i ≡ Some x → slice_get items.now j ≡ Some y → T.cmp x y ≡ Equal → get_or leaders.items i 0 ≡ get_or leaders.items j 0) }
{
    let mut firsts = BTreeMap::new(alloc);
    let mut leaders = Vec::with_capacity(alloc, items.len())?;
    for (i, item) in items.iter().enumerate() {
        let first = first_of(&mut firsts, item, i)?;
        leaders.push(first)?;
    }
    Ok(leaders)
}

// The number of an item: that of an equal one, if there is one, and else the next.
fn first_of<'a, T: Ord>(
    firsts: &mut BTreeMap<&'a T, usize>,
    item: &'a T,
    next: usize,
) -> Result<usize, OutOfMemory>
    ensures { IfOk result (λ n. IsFirst T.cmp (λ q. get_by (λ k. T.cmp q k.now) firsts.old) (λ q. get_by (λ k. T.cmp q k.now) firsts.new) item.now next n) }
{
    match firsts.get(&item) {
        Some(first) => Ok(*first),
        None => {
            firsts.insert(item, next)?;
            Ok(next)
        }
    }
}

/// Nodes without links.
pub fn no_links(alloc: Global, count: usize) -> Result<Vec<Vec<usize>>, OutOfMemory>
    ensures length { IfOk result (λ links. length links.items ≡ count) }
    ensures empty { IfOk result (λ links. (n : ℕ) → linked_with (map (λ v. v.items) links.items) n ≡ []) }
{
    let mut links = Vec::with_capacity(alloc, count)?;
    for _ in 0..count {
        links.push(Vec::new(alloc))?;
    }
    Ok(links)
}

fn add_link(links: &mut Vec<Vec<usize>>, from: usize, to: usize) -> Result<(), OutOfMemory>
    requires { from < length links.old.items }
    ensures { OnOk result (map (λ v. v.items) links.new.items ≡ with_link from to (map (λ v. v.items) links.old.items)) }
{
    links[from].push(to)?;
    Ok(())
}

/// Links each node with its leader, both ways.
pub fn link(links: &mut Vec<Vec<usize>>, leaders: &[usize]) -> Result<(), OutOfMemory>
    requires count { length links.old.items ≡ length leaders.now }
    requires below { AreBelow (length leaders.now) leaders.now }
    ensures count { OnOk result (length links.new.items ≡ length links.old.items) }
    ensures links { OnOk result (AreLinked (map (λ v. v.items) links.old.items) (map (λ v. v.items) links.new.items) (length leaders.now) leaders.now) }
{
    for (i, leader) in leaders.iter().enumerate() {
        add_link(links, i, *leader)?;
        add_link(links, *leader, i)?;
    }
    Ok(())
}

/// For each node whether it is reached from the nodes of a list.
pub fn reached(
    alloc: Global,
    links: &[Vec<usize>],
    start: Vec<usize>,
) -> Result<Vec<bool>, OutOfMemory>
    requires start { AreBelow (length links.now) start.items }
    requires links { IsGraph (map (λ v. v.items) links.now) }
    ensures length { IfOk result (λ seen. length seen.items ≡ length links.now) }
    ensures sound { IfOk result (λ seen. (n : ℕ) → get_or seen.items n false ≡ true → Reaches (map (λ v. v.items) links.now) start.items n) }
    ensures complete { IfOk result (λ seen. (n : ℕ) → Reaches (map (λ v. v.items) links.now) start.items n → get_or seen.items n false ≡ true) }
{
    let mut seen = vec![in alloc; false; links.len()]?;
    let mut left = start;
    while let Some(node) = left.pop() {
        if !seen[node] {
            seen[node] = true;
            left.extend_from_slice(&links[node])?;
        }
    }
    Ok(seen)
}
