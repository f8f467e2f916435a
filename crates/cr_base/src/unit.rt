//! One entry of a compilation database that is a translation unit.
ghost use Rattle.std.specs.Prelude.{◌≡◌, IfOk};

use crate::{List, OutOfMemory, PathText, Text};
use std::alloc::Global;

/// A translation unit: the number of its entry, its main file, the directory in which its command
/// runs, its directories of includes in order (`-iquote`, `-I`, `-isystem`), and the text made from
/// its `-D`, `-U` and `-include` words.
#[derive(Drop)]
pub struct Unit {
    pub number: u32,
    pub main: PathText,
    pub directory: PathText,
    pub quote_dirs: List<PathText>,
    pub dirs: List<PathText>,
    pub system_dirs: List<PathText>,
    pub words: Text,
}

fn copy_paths(alloc: Global, paths: &List<PathText>) -> Result<List<PathText>, OutOfMemory>
    ensures { IfOk result (λ made. made ≡ paths.now) }
{
    let mut copies = Vec::new(alloc);
    for path in paths.items() {
        copies.push(path.copy(alloc)?)?;
    }
    Ok(List::of(copies))
}

impl Unit {
    /// An equal unit of its own.
    pub fn copy(&self, alloc: Global) -> Result<Unit, OutOfMemory>
        ensures { IfOk result (λ made. made ≡ self.now) }
    {
        Ok(Unit {
            number: self.number,
            main: self.main.copy(alloc)?,
            directory: self.directory.copy(alloc)?,
            quote_dirs: copy_paths(alloc, &self.quote_dirs)?,
            dirs: copy_paths(alloc, &self.dirs)?,
            system_dirs: copy_paths(alloc, &self.system_dirs)?,
            words: self.words.copy(alloc)?,
        })
    }
}
