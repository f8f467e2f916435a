//! The paths of scopes by number: equal paths have one number.
ghost use Rattle.std.specs.Prelude.{◌≡◌, ◌+◌, ◌-◌, ◌<◌, ◌^◌, ◌++◌, ◌∷◌, ℕ, [], length, slice_get, Some, IfOk, OnOk, OnErr};
ghost use Rattle.indexmap.specs.IndexSet.{insert_key};
ghost use Rattle.cr_paths.specs.Paths.{path_at, AreDistinct, Grows, file_scope_alone};
ghost use Rattle.cr_paths.specs.Kept.{IsEquality, Puts};
ghost use Rattle.cr_paths.specs.declared.paths.Inner.{Inner};

use cr_base::OutOfMemory;
use indexmap::IndexSet;
use std::alloc::Global;
use std::marker::Model;

// The number of the path of the scope that a scope stands in, and the scope's own number.
#[derive(Clone, Copy, PartialEq, Eq, Hash)]
struct Inner {
    outer: usize,
    scope: usize,
}

/// The paths of scopes in the order in which they were met, file scope's first. A path is the list of the numbers of the
/// scopes that it leads into, from outside (C11 6.2.1p4).
#[derive(Drop)]
pub struct Paths {
    inner: IndexSet<Inner>,
}

impl Model for Paths {
    ghost use Rattle.std.specs.Prelude.{List, ℕ};

    ghost Value = { List (List ℕ) };

    ghost use Rattle.cr_paths.specs.Kept.{paths_of, AreInner};

    ghost view = { λ a. paths_of a.inner.keys };

    ghost invariant = { λ a. AreInner a.inner.keys };
}

// Puts a path into a set of them; what is equal there is the same.
fn put(paths: &mut IndexSet<Inner>, path: Inner) -> Result<usize, OutOfMemory>
    ensures equality { IsEquality ⟦<Inner as PartialEq>⟧.eq }
    ensures number { IfOk result (λ n. slice_get paths.new.keys n ≡ Some path) }
    ensures short { IfOk result (λ n. n + 1 < 2 ^ 64) }
    ensures ok { OnOk result (paths.new.keys ≡ insert_key ⟦<Inner as PartialEq>⟧.eq paths.old.keys path) }
    ensures err { OnErr result (paths.new.keys ≡ paths.old.keys) }
{
    let (n, _) = paths.insert_full(path)?;
    if n < paths.len() {
        Ok(n)
    } else {
        unreachable!()
    }
}

// The number of a path, to whose end it goes where it isn't there.
fn number_in(paths: &mut IndexSet<Inner>, path: Inner) -> Result<usize, OutOfMemory>
    ensures number { IfOk result (λ n. slice_get paths.new.keys n ≡ Some path) }
    ensures short { IfOk result (λ n. n + 1 < 2 ^ 64) }
    ensures ok { OnOk result (Puts paths.old.keys path paths.new.keys) }
    ensures err { OnErr result (paths.new.keys ≡ paths.old.keys) }
{
    let n = put(paths, path)?;
    Ok(n)
}

// The number of the path around one, 0 around the first.
fn outer_in(paths: &IndexSet<Inner>, path: usize) -> usize
    requires { path < 1 + length paths.now.keys }
    ensures first { path ≡ 0 → result ≡ 0 }
    ensures later { 0 < path → (x : Inner) × (slice_get paths.now.keys (path - 1) ≡ Some x) × (result ≡ x.outer) }
{
    if path == 0 {
        return 0;
    }
    match paths.get_index(path - 1) {
        Some(inner) => inner.outer,
        None => unreachable!(),
    }
}

impl Paths {
    /// The path of file scope alone.
    pub fn new(alloc: Global) -> Paths
        ensures { result ≡ file_scope_alone }
    {
        Paths {
            inner: IndexSet::new(alloc),
        }
    }

    /// The number of the path of a scope inside another, by the number of that one's path and the scope's own number.
    ///
    /// Equal paths have one number, and a path keeps it. After want of memory nothing has changed.
    pub fn inside(&mut self, outer: usize, scope: usize) -> Result<usize, OutOfMemory>
        requires { outer < length self.old }
        ensures within { IfOk result (λ n. n < length self.new) }
        ensures path { IfOk result (λ n. path_at self.new n ≡ path_at self.old outer ++ scope ∷ []) }
        ensures keeps { Grows self.old self.new }
        ensures distinct { OnOk result (AreDistinct self.new) }
        ensures err { OnErr result (self.new ≡ self.old) }
    {
        let n = number_in(&mut self.inner, Inner { outer, scope })?;
        Ok(n + 1)
    }

    /// The number of the path of the scope around one; around file scope, which has number 0, it answers 0.
    pub fn outer(&self, path: usize) -> usize
        requires { path < length self.now }
        ensures before { 0 < path → result < path }
        ensures within { result < length self.now }
        ensures inner { 0 < path → (k : ℕ) × (path_at self.now path ≡ path_at self.now result ++ k ∷ []) }
        ensures file_scope { path ≡ 0 → path_at self.now result ≡ [] }
        ensures distinct { AreDistinct self.now }
    {
        outer_in(&self.inner, path)
    }
}
