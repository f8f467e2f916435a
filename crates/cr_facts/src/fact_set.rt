//! An ordered set of facts.
ghost use Rattle.std.specs.Prelude.{◌≡◌, not, IfOk, OnOk, OnErr};
ghost use Rattle.std.specs.List.Sorted.{IsStrictlySortedBy};
ghost use Rattle.std.specs.FinSet as set;
ghost use Rattle.std.specs.FinSet.{from_list};
ghost use Rattle.cr_facts.specs.FactOrder.{fact_cmp};

use crate::Fact;
use cr_base::OutOfMemory;
use std::alloc::Global;
use std::collections::{BTreeSet, btree_set};
use std::marker::Model;

/// The facts of a set in the derived order of `Fact`, each once.
pub type FactIter<'a> = btree_set::Iter<'a, Fact>;

/// A set of facts.
#[derive(Drop)]
pub struct FactSet {
    alloc: Global,
    facts: BTreeSet<Fact>,
}

impl Model for FactSet {
    ghost use Rattle.std.specs.FinSet.{from_list};
    ghost use Rattle.cr_facts.specs.FactOrder.{Facts, facts_code};

    ghost Value = { Facts };

    ghost coded = { facts_code };

    ghost view = { λ s. from_list s.facts.keys };
}

impl FactSet {
    /// The empty set.
    pub fn new(alloc: Global) -> FactSet
        ensures { result ≡ set.empty }
    {
        FactSet {
            alloc,
            facts: BTreeSet::new(alloc),
        }
    }

    /// Adds a fact, and answers whether it was new. Want of memory changes nothing.
    pub fn insert(&mut self, fact: Fact) -> Result<bool, OutOfMemory>
        ensures is_new { IfOk result (λ is_new. is_new ≡ not (set.contains self.old fact)) }
        ensures ok { OnOk result (self.new ≡ set.insert self.old fact) }
        ensures err { OnErr result (self.new ≡ self.old) }
    {
        let is_new = self.facts.insert(fact)?;
        Ok(is_new)
    }

    /// Whether the fact is in the set.
    pub fn contains(&self, fact: &Fact) -> bool
        ensures { result ≡ set.contains self.now fact.now }
    {
        self.facts.contains(fact)
    }

    /// Adds the facts of another set. Want of memory changes nothing.
    pub fn union(&mut self, other: &FactSet) -> Result<(), OutOfMemory>
        ensures ok { OnOk result (self.new ≡ set.union self.old other.now) }
        ensures err { OnErr result (self.new ≡ self.old) }
    {
        let missing = self.missing(other)?;
        match self.insert_all(&missing) {
            Ok(()) => Ok(()),
            Err(fault) => {
                self.remove_all(&missing);
                Err(fault)
            }
        }
    }

    /// The facts in the derived order of `Fact`, each once.
    pub fn iter(&self) -> FactIter<'_>
        ensures facts { from_list result ≡ self.now }
        ensures ordered { IsStrictlySortedBy fact_cmp result }
    {
        self.facts.iter()
    }

    // The other set's facts that are not in this one.
    fn missing(&self, other: &FactSet) -> Result<FactSet, OutOfMemory>
        ensures { IfOk result (λ missing. missing ≡ set.difference other.now self.now) }
    {
        let mut missing = FactSet::new(self.alloc);
        for fact in other.iter() {
            if !self.contains(fact) {
                missing.insert(fact.copy(self.alloc)?)?;
            }
        }
        Ok(missing)
    }

    // Want of memory leaves some of the facts in the set.
    fn insert_all(&mut self, facts: &FactSet) -> Result<(), OutOfMemory>
        ensures ok { OnOk result (self.new ≡ set.union self.old facts.now) }
        ensures err { OnErr result (set.union self.new facts.now ≡ set.union self.old facts.now) }
        ensures kept { OnErr result (set.union self.new self.old ≡ self.new) }
    {
        let alloc = self.alloc;
        for fact in facts.iter() {
            self.insert(fact.copy(alloc)?)?;
        }
        Ok(())
    }

    fn remove_all(&mut self, facts: &FactSet)
        ensures { self.new ≡ set.difference self.old facts.now }
    {
        for fact in facts.iter() {
            self.remove(fact);
        }
    }

    fn remove(&mut self, fact: &Fact)
        ensures { self.new ≡ set.remove self.old fact.now }
    {
        self.facts.remove(fact);
    }
}
