//! The entries of a run, parted into units and skipped ones.
ghost use Rattle.std.specs.Prelude.{◌≡◌, ◌++◌, IfOk, OnOk};
ghost use Rattle.cr_goal.specs.Units as spec;

use cr_base::{OutOfMemory, PathText, Unit};
use cr_compdb::Entry;
use std::alloc::Global;

/// An entry that is no translation unit of C: its number, from 0, and the path of its file.
#[derive(Drop)]
pub struct Skip {
    pub number: u32,
    pub path: PathText,
}

/// The translation units of a run, and the entries that are skipped, each in order.
#[derive(Drop)]
pub struct Entries {
    pub units: Vec<Unit>,
    pub skipped: Vec<Skip>,
}

impl Entries {
    /// Parts the entries.
    pub fn of(alloc: Global, entries: Vec<Entry>) -> Result<Entries, OutOfMemory>
        ensures units { IfOk result (λ made. made.units.items ≡ spec.units_in entries.items) }
        ensures skipped { IfOk result (λ made. made.skipped.items ≡ spec.skips_in entries.items) }
    {
        let mut parted = Entries {
            units: Vec::new(alloc),
            skipped: Vec::new(alloc),
        };
        for entry in entries {
            parted.add(entry)?;
        }
        Ok(parted)
    }

    fn add(&mut self, entry: Entry) -> Result<(), OutOfMemory>
        ensures units { OnOk result (self.new.units.items ≡ self.old.units.items ++ spec.unit_in entry) }
        ensures skipped { OnOk result (self.new.skipped.items ≡ self.old.skipped.items ++ spec.skip_in entry) }
    {
        match entry {
            Entry::Unit(unit) => self.units.push(unit)?,
            Entry::Skipped(number, path) => self.skipped.push(Skip { number, path })?,
        }
        Ok(())
    }
}
