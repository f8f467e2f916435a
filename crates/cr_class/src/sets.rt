//! Lists as ordered sets, and back.
ghost use Rattle.std.specs.Prelude.{◌≡◌, IfOk};
ghost use Rattle.std.specs.List.{list_any};
ghost use Rattle.std.specs.List.Sorted.{IsStrictlySortedBy};
ghost use Rattle.std.specs.Ordering.{eq_by_cmp};
ghost use Rattle.std.specs.BTreeSet as tree;

use cr_base::OutOfMemory;
use std::alloc::Global;
use std::collections::BTreeSet;

/// The set of the items.
pub fn set_of<T: Ord + Drop>(alloc: Global, items: Vec<T>) -> Result<BTreeSet<T>, OutOfMemory>
    ensures { IfOk result (λ set. (q : T) → tree.contains T.cmp set q ≡ list_any (eq_by_cmp T.cmp q) items.items) }
{
    let set: BTreeSet<T> = items.into_iter().collect(alloc)?;
    Ok(set)
}

/// The items of the set, rising.
pub fn listed<T: Ord + Drop>(alloc: Global, set: BTreeSet<T>) -> Result<Vec<T>, OutOfMemory>
    ensures items { IfOk result (λ items. items.items ≡ set.keys) }
    ensures rising { IfOk result (λ items. IsStrictlySortedBy T.cmp items.items) }
{
    let items: Vec<T> = set.into_iter().collect(alloc)?;
    Ok(items)
}
