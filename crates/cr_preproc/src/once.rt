//! The files that aren't opened again.
ghost use Rattle.std.specs.Prelude.{◌≡◌, [], OnOk, OnErr};
ghost use Rattle.cr_base.specs.NameTable.{with_text};
ghost use Rattle.cr_macros.specs.Tokens.{has};

use cr_base::OutOfMemory;
use indexmap::IndexSet;
use std::alloc::Global;
use std::marker::Model;

// The paths of the files in which a `once` was read. Seen as their list.
#[derive(Drop)]
pub struct Once {
    alloc: Global,
    paths: IndexSet<Vec<u8>>,
}

impl Model for Once {
    ghost use Rattle.std.specs.Prelude.{List, ℕ, map};

    ghost Value = { List (List ℕ) };

    ghost view = { λ o. map (λ v. v.items) o.paths.keys };
}

impl Once {
    pub fn new(alloc: Global) -> Once
        ensures { result ≡ [] }
    {
        Once {
            alloc,
            paths: IndexSet::new(alloc),
        }
    }

    pub fn has(&self, path: &[u8]) -> bool
        ensures { result ≡ has self.now path.now }
    {
        self.paths.get_index_of(path).is_some()
    }

    pub fn add(&mut self, path: &[u8]) -> Result<(), OutOfMemory>
        ensures added { OnOk result (self.new ≡ with_text self.old path.now) }
        ensures kept { OnErr result (self.new ≡ self.old) }
    {
        if !self.has(path) {
            self.paths.insert_full(path.to_vec(self.alloc)?)?;
        }
        Ok(())
    }
}
