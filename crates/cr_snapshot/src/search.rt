//! Where an include is looked for.
ghost use Rattle.std.specs.Prelude.{◌≡◌, ◌∷◌, ◌++◌, IfOk, OnOk, if◌then◌else◌, []};
ghost use Rattle.cr_base.specs.Path.{normalised, is_rooted};
ghost use Rattle.cr_snapshot.specs.IncludeSearch as spec;

use crate::header::is_built_in;
use cr_base::{OutOfMemory, PathText, Unit};
use std::alloc::Global;

// Whether the name is an absolute path.
fn is_rooted(name: &[u8]) -> bool
    ensures { result ≡ is_rooted name.now }
{
    match name {
        [first, ..] => *first == b'/',
        [] => false,
    }
}

pub fn is_apart(path: &[u8]) -> bool
    ensures { result ≡ spec.is_apart path.now }
{
    path.starts_with(b"//")
}

fn is_words(path: &[u8]) -> bool
    ensures { result ≡ spec.is_words path.now }
{
    path.starts_with(b"//words/")
}

fn put_path(
    alloc: Global,
    paths: &mut Vec<PathText>,
    directory: &PathText,
    name: &[u8],
) -> Result<(), OutOfMemory>
    ensures { OnOk result (paths.new.items ≡ paths.old.items ++ normalised directory.now name.now ∷ []) }
{
    paths.push(PathText::normalise(alloc, directory, name)?)?;
    Ok(())
}

// Puts the paths of the name in each of the directories behind those that are there.
fn put_paths(
    alloc: Global,
    paths: &mut Vec<PathText>,
    directories: &[PathText],
    name: &[u8],
) -> Result<(), OutOfMemory>
    ensures { OnOk result (paths.new.items ≡ paths.old.items ++ spec.paths_in directories.now name.now) }
{
    for directory in directories {
        put_path(alloc, paths, directory, name)?;
    }
    Ok(())
}

fn put_own_path(
    alloc: Global,
    paths: &mut Vec<PathText>,
    unit: &Unit,
    from: &PathText,
    name: &[u8],
) -> Result<(), OutOfMemory>
    ensures { OnOk result (paths.new.items ≡ paths.old.items
        ++ spec.paths_in (spec.own_directories unit.now.directory from.now) name.now) }
{
    if is_words(from.bytes()) {
        put_path(alloc, paths, &unit.directory, name)?;
    } else if !is_apart(from.bytes()) {
        let directory = PathText::normalise(alloc, from, b"..")?;
        put_path(alloc, paths, &directory, name)?;
    }
    Ok(())
}

// Puts the paths where only a quoted include is looked for.
fn put_quoted(
    alloc: Global,
    paths: &mut Vec<PathText>,
    unit: &Unit,
    from: &PathText,
    name: &[u8],
) -> Result<(), OutOfMemory>
    ensures { OnOk result (paths.new.items ≡ paths.old.items
        ++ spec.paths_in (spec.own_directories unit.now.directory from.now) name.now
        ++ spec.paths_in unit.now.quote_dirs name.now) }
{
    put_own_path(alloc, paths, unit, from, name)?;
    put_paths(alloc, paths, unit.quote_dirs.items(), name)?;
    Ok(())
}

// Puts the built-in header of the name, if there is one.
fn put_built_in(alloc: Global, paths: &mut Vec<PathText>, name: &[u8]) -> Result<(), OutOfMemory>
    ensures { OnOk result (paths.new.items ≡ paths.old.items ++ spec.built_in_paths name.now) }
{
    if is_built_in(name) {
        paths.push(PathText::apart(alloc, name)?)?;
    }
    Ok(())
}

// The paths at which an include in the file `from` is looked for, in order.
pub fn candidates(
    alloc: Global,
    unit: &Unit,
    from: &PathText,
    angled: bool,
    name: &[u8],
) -> Result<Vec<PathText>, OutOfMemory>
    ensures { IfOk result (λ paths. paths.items ≡ spec.candidates unit.now from.now angled name.now) }
{
    let mut paths = Vec::new(alloc);
    if is_rooted(name) {
        put_path(alloc, &mut paths, &PathText::empty(alloc), name)?;
        return Ok(paths);
    }
    if !angled {
        put_quoted(alloc, &mut paths, unit, from, name)?;
    }
    put_paths(alloc, &mut paths, unit.dirs.items(), name)?;
    put_paths(alloc, &mut paths, unit.system_dirs.items(), name)?;
    put_built_in(alloc, &mut paths, name)?;
    Ok(paths)
}
