//! Hide sets by number, so that a token carries its set without a copy.
ghost use Rattle.std.specs.Prelude.{◌≡◌, ◌≢◌, ℕ, ◌+◌, ◌<◌, [], ◌∷◌, ◌^◌, false, IsTrue, IfOk, OnOk, OnErr, IfSome, Some, MatchOption, if◌then◌else◌, length, slice_get};
ghost use Rattle.std.specs.List.{All};
ghost use Rattle.indexmap.specs.IndexSet.{insert_key};
ghost use Rattle.cr_macros.specs.Definition.{has_name};
ghost use Rattle.cr_expand.specs.HideSets.{set_at, with_number, with_numbers, in_both, Puts, AreBelow};
ghost use Rattle.cr_expand.specs.HideForks.{Names, IsFork};

use crate::hide_path::HidePath;
use cr_base::{Name, OutOfMemory};
use indexmap::IndexSet;
use std::alloc::Global;
use std::marker::Model;

/// The number of a hide set.
#[derive(Clone, Copy, Debug, PartialEq, Eq, Hash)]
pub struct HideSet(pub usize);

// A set with one name more than an earlier one.
#[derive(Clone, Copy, Debug, PartialEq, Eq, Hash)]
pub struct Node {
    pub parent: HideSet,
    pub name: Name,
}

// Two sets on the way down to one that both were made from, and the names that were passed.
#[derive(Drop)]
struct Fork {
    at: HideSet,
    names: Vec<Name>,
    other: HideSet,
    others: IndexSet<Name>,
}

// The place of a node, which goes to the end where it isn't there.
fn put(nodes: &mut IndexSet<Node>, node: Node) -> Result<usize, OutOfMemory>
    ensures place { IfOk result (λ n. slice_get nodes.new.keys n ≡ Some node) }
    ensures within { IfOk result (λ n. n < length nodes.new.keys) }
    ensures small { length nodes.new.keys < 2 ^ 63 }
    ensures ok { OnOk result (nodes.new.keys ≡ insert_key ⟦<Node as PartialEq>⟧.eq nodes.old.keys node) }
    ensures err { OnErr result (nodes.new.keys ≡ nodes.old.keys) }
{
    let found = nodes.insert_full(node);
    let _size = nodes.len();
    let (place, _) = found?;
    Ok(place)
}

/// Hide sets. Contracts see them as the list of the sets, each a list of names; set 0 is empty.
///
/// To ask for a name walks the set down to the path, which is led to each set that gets one name
/// more. So where macros stand in one another, each costs the same, however deep it stands.
#[derive(Drop)]
pub struct HideSets {
    alloc: Global,
    nodes: IndexSet<Node>,
    path: HidePath,
}

impl Model for HideSets {
    ghost use Rattle.cr_expand.specs.HideSets.{Sets, sets_of, AreNodes};
    ghost use Rattle.cr_expand.specs.HidePaths.{IsPath};

    ghost Value = { Sets };

    ghost view = { λ t. sets_of t.nodes.keys };

    ghost invariant = { λ t. AreNodes t.nodes.keys × IsPath (sets_of t.nodes.keys) t.path.steps.entries };
}

impl HideSets {
    /// The empty set alone.
    pub fn new(alloc: Global) -> HideSets
        ensures { result ≡ [] ∷ [] }
    {
        HideSets {
            alloc,
            nodes: IndexSet::new(alloc),
            path: HidePath::new(alloc),
        }
    }

    // What made a set that isn't the first.
    fn made(&self, set: HideSet) -> Node
        requires later { 0 < set.0 }
        requires known { set.0 < length self.now }
        ensures made { set_at self.now set.0 ≡ result.name ∷ set_at self.now result.parent.0 }
        ensures earlier { result.parent.0 < set.0 }
    {
        self.nodes[set.0 - 1]
    }

    // What made a set; none, where it is the first.
    fn node(&self, set: HideSet) -> Option<Node>
        requires { set.0 < length self.now }
        ensures { MatchOption result (set_at self.now set.0 ≡ []) (λ node. (set_at self.now set.0 ≡ node.name ∷ set_at self.now node.parent.0) × (node.parent.0 < set.0)) }
    {
        let _nodes = &self.nodes;
        if set.0 == 0 {
            return None;
        }
        Some(self.made(set))
    }

    // Whether a name is in a set, if the path leads through that; `last` is the name that made it.
    fn on_path(&self, set: HideSet, last: Name, name: Name) -> Option<bool>
        ensures { IfSome result (λ found. found ≡ has_name (set_at self.now set.0) name) }
    {
        self.path.has(set, last, name)
    }

    /// Whether a name is in a set.
    pub fn has(&self, set: HideSet, name: Name) -> bool
        requires { set.0 < length self.now }
        ensures { result ≡ has_name (set_at self.now set.0) name }
    {
        let mut at = set;
        while let Some(node) = self.node(at) {
            if node.name == name {
                return true;
            }
            if let Some(found) = self.on_path(at, node.name, name) {
                return found;
            }
            at = node.parent;
        }
        false
    }

    // Takes the later of the two a step down.
    fn descend(&self, fork: &mut Fork) -> Result<(), OutOfMemory>
        requires apart { fork.old.at.0 ≢ fork.old.other.0 }
        requires at { fork.old.at.0 < length self.now }
        requires other { fork.old.other.0 < length self.now }
        ensures kept { (set other : Names) → IsFork self.now set other fork.old.at.0 fork.old.other.0 fork.old.names.items fork.old.others.keys → OnOk result (IsFork self.now set other fork.new.at.0 fork.new.other.0 fork.new.names.items fork.new.others.keys) }
        ensures lower { OnOk result (fork.new.at.0 + fork.new.other.0 < fork.old.at.0 + fork.old.other.0) }
    {
        if fork.at.0 > fork.other.0 {
            let node = self.made(fork.at);
            fork.names.push(node.name)?;
            fork.at = node.parent;
            return Ok(());
        }
        let node = self.made(fork.other);
        let _ = fork.others.insert(node.name)?;
        fork.other = node.parent;
        Ok(())
    }

    // The latest set that both were made from, and what they have over it.
    fn fork(&self, alloc: Global, set: HideSet, other: HideSet) -> Result<Fork, OutOfMemory>
        requires set { set.0 < length self.now }
        requires other { other.0 < length self.now }
        ensures { IfOk result (λ f. IsFork self.now (set_at self.now set.0) (set_at self.now other.0) f.at.0 f.at.0 f.names.items f.others.keys) }
    {
        let _nodes = &self.nodes;
        let mut fork = Fork {
            at: set,
            names: Vec::new(alloc),
            other,
            others: IndexSet::new(alloc),
        };
        while fork.at != fork.other {
            self.descend(&mut fork)?;
        }
        Ok(fork)
    }

    fn is_empty(&self, set: HideSet) -> bool
        requires { set.0 < length self.now }
        ensures { IsTrue result → set_at self.now set.0 ≡ [] }
    {
        self.node(set).is_none()
    }

    // The sets from this one down to the path, which doesn't lead through them.
    fn off_path(&self, set: HideSet) -> Result<Vec<HideSet>, OutOfMemory>
        requires { set.0 < length self.now }
        ensures { IfOk result (λ sets. All (λ s. s.0 < length self.now) sets.items) }
    {
        let mut sets = Vec::new(self.alloc);
        let mut at = set;
        while let Some(node) = self.node(at) {
            if self.on_path(at, node.name, node.name).is_some() {
                return Ok(sets);
            }
            sets.push(at)?;
            at = node.parent;
        }
        Ok(sets)
    }

    // Leads the path on to a set from the one that it was made from.
    fn follow(&mut self, set: HideSet) -> Result<(), OutOfMemory>
        requires { set.0 < length self.old }
        ensures { self.new ≡ self.old }
    {
        match self.node(set) {
            None => Ok(()),
            Some(node) => {
                self.path.go(node.parent, node.name, set)?;
                Ok(())
            }
        }
    }

    // Leads the path to a set.
    fn lead(&mut self, set: HideSet) -> Result<(), OutOfMemory>
        requires { set.0 < length self.old }
        ensures { self.new ≡ self.old }
    {
        let sets = self.off_path(set)?;
        for i in (0..sets.len()).rev() {
            self.follow(sets[i])?;
        }
        Ok(())
    }

    // A set with a name that it hasn't.
    fn with_new(&mut self, set: HideSet, name: Name) -> Result<HideSet, OutOfMemory>
        requires set { set.0 < length self.old }
        requires new { has_name (set_at self.old set.0) name ≡ false }
        ensures puts { IfOk result (λ n. Puts self.old (name ∷ set_at self.old set.0) self.new n.0) }
        ensures kept { OnErr result (self.new ≡ self.old) }
        ensures below { (bound : ℕ) → name.0 < bound → AreBelow bound self.old → AreBelow bound self.new }
    {
        let place = put(&mut self.nodes, Node { parent: set, name })?;
        Ok(HideSet(place + 1))
    }

    /// A set with one more name.
    pub fn with_one_more(&mut self, set: HideSet, name: Name) -> Result<HideSet, OutOfMemory>
        requires { set.0 < length self.old }
        ensures puts { IfOk result (λ n. Puts self.old (with_number name (set_at self.old set.0)) self.new n.0) }
        ensures kept { OnErr result (self.new ≡ self.old) }
        ensures below { (bound : ℕ) → name.0 < bound → AreBelow bound self.old → AreBelow bound self.new }
    {
        self.lead(set)?;
        if self.has(set, name) {
            return Ok(set);
        }
        let more = self.with_new(set, name)?;
        Ok(more)
    }

    // A set with a name that it hasn't, where the name is wanted.
    fn with_wanted(
        &mut self,
        set: HideSet,
        name: Name,
        wanted: bool,
    ) -> Result<HideSet, OutOfMemory>
        requires set { set.0 < length self.old }
        requires new { IsTrue wanted → has_name (set_at self.old set.0) name ≡ false }
        ensures below { (bound : ℕ) → name.0 < bound → AreBelow bound self.old → AreBelow bound self.new }
        ensures puts { IfOk result (λ n. Puts self.old (if wanted then name ∷ set_at self.old set.0 else set_at self.old set.0) self.new n.0) }
    {
        if !wanted {
            return Ok(set);
        }
        let more = self.with_new(set, name)?;
        Ok(more)
    }

    /// A set with all names of another.
    pub fn with_all(
        &mut self,
        alloc: Global,
        set: HideSet,
        more: HideSet,
    ) -> Result<HideSet, OutOfMemory>
        requires set { set.0 < length self.old }
        requires more { more.0 < length self.old }
        ensures below { (bound : ℕ) → AreBelow bound self.old → AreBelow bound self.new }
        ensures puts { IfOk result (λ n. Puts self.old (with_numbers (set_at self.old set.0) (set_at self.old more.0)) self.new n.0) }
    {
        if self.is_empty(more) {
            return Ok(set);
        }
        let fork = self.fork(alloc, more, set)?;
        let mut all = set;
        for i in (0..fork.names.len()).rev() {
            let name = fork.names[i];
            all = self.with_wanted(all, name, !fork.others.contains(&name))?;
        }
        Ok(all)
    }

    /// The names that are in both sets.
    pub fn both(
        &mut self,
        alloc: Global,
        set: HideSet,
        other: HideSet,
    ) -> Result<HideSet, OutOfMemory>
        requires set { set.0 < length self.old }
        requires other { other.0 < length self.old }
        ensures below { (bound : ℕ) → AreBelow bound self.old → AreBelow bound self.new }
        ensures puts { IfOk result (λ n. Puts self.old (in_both (set_at self.old set.0) (set_at self.old other.0)) self.new n.0) }
    {
        if self.is_empty(set) {
            return Ok(set);
        }
        if self.is_empty(other) {
            return Ok(other);
        }
        let fork = self.fork(alloc, set, other)?;
        let mut common = fork.at;
        for i in (0..fork.names.len()).rev() {
            let name = fork.names[i];
            common = self.with_wanted(common, name, fork.others.contains(&name))?;
        }
        Ok(common)
    }

    /// The empty set.
    pub fn empty(&self) -> HideSet
        ensures { (result.0 < length self.now) × (set_at self.now result.0 ≡ []) }
    {
        let _nodes = &self.nodes;
        HideSet(0)
    }
}
