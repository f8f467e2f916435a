//! Texts and their numbers.
ghost use Rattle.std.specs.Prelude.{◌≡◌, ◌<◌, ◌-◌, ◌^◌, [], length, slice_get, take, Some, IfOk, OnErr};
ghost use Rattle.cr_base.specs.NameTable.{Interns, IsDistinct, StaysDistinct};

use crate::{Name, OutOfMemory};
use indexmap::IndexSet;
use std::alloc::Global;
use std::marker::Model;

/// A table that gives each text one number, and keeps it. Contracts see it as the list of its texts
/// in the order of their numbers, which are 0, 1, 2 and so on. No text stands in it twice.
#[derive(Drop)]
pub struct NameTable {
    alloc: Global,
    texts: IndexSet<Vec<u8>>,
}

impl Model for NameTable {
    ghost use Rattle.std.specs.Prelude.{List, ℕ, map};
    ghost use Rattle.cr_base.specs.NameTable.{IsDistinct};

    ghost Value = { List (List ℕ) };

    ghost view = { λ t. map (λ v. v.items) t.texts.keys };

    ghost invariant = { λ t. IsDistinct (map (λ v. v.items) t.texts.keys) };
}

impl NameTable {
    /// A table that holds no text.
    pub fn new(alloc: Global) -> NameTable
        ensures { result ≡ [] }
    {
        NameTable {
            alloc,
            texts: IndexSet::new(alloc),
        }
    }

    /// The number of a text. A text that the table doesn't hold yet takes the next number.
    pub fn intern(&mut self, text: &[u8]) -> Result<Name, OutOfMemory>
        requires { length self.old < 2 ^ 32 - 1 }
        ensures interned { IfOk result (λ name. Interns self.old text.now self.new name.0) }
        ensures distinct { IsDistinct self.new }
        ensures err { OnErr result (self.new ≡ self.old) }
    {
        if let Some(place) = self.texts.get_index_of(text) {
            return Ok(Name(place as u32));
        }
        let (place, _) = self.texts.insert_full(text.to_vec(self.alloc)?)?;
        Ok(Name(place as u32))
    }

    /// Keeps the texts with numbers below `len`, and drops the others.
    pub fn truncate(&mut self, len: usize)
        ensures { self.new ≡ take len self.old }
    {
        self.texts.truncate(len);
    }

    /// The text that has this number.
    pub fn text(&self, name: Name) -> &[u8]
        requires { name.0 < length self.now }
        ensures text { slice_get self.now name.0 ≡ Some result.now }
        ensures distinct { IsDistinct self.now }
    {
        &self.texts[name.0 as usize]
    }

    /// The allocator that the table was made with.
    pub fn alloc(&self) -> Global {
        self.alloc
    }

    /// How many texts the table holds.
    pub fn len(&self) -> usize
        ensures { result ≡ length self.now }
    {
        self.texts.len()
    }
}

/// A table in which no text stands twice has none twice after one more. It does nothing: its contract
/// is the law.
pub fn texts_stay_distinct()
    ensures { StaysDistinct }
{}
