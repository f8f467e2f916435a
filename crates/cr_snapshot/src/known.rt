//! One known file, and the table of all.
ghost use Rattle.std.specs.Prelude.{◌≡◌, ◌++◌, ◌∷◌, ◌<◌, ◌^◌, [], length, map, OnOk, OnErr, IfOk, None, Some};
ghost use Rattle.indexmap.specs.IndexMap.{get};
ghost use Rattle.indexmap.specs.IndexMap.{values, index_map_len};
ghost use Rattle.cr_snapshot.specs.Tables.{IsKeyed};
ghost use Rattle.cr_snapshot.specs.Files as spec;

use crate::header::{HEADERS, Header};
use cr_base::{List, OutOfMemory, PathNo, PathText};
use indexmap::IndexMap;
use std::alloc::Global;

/// A path that is known, with the bytes of the file that is there, if one is.
#[derive(Drop)]
pub struct KnownFile {
    pub path: PathText,
    pub found: Option<List<u8>>,
}

// Puts a file under its path, which isn't there yet, behind the others.
pub fn put(
    alloc: Global,
    files: &mut IndexMap<Vec<u8>, KnownFile>,
    file: KnownFile,
) -> Result<(), OutOfMemory>
    requires keyed { IsKeyed (λ v. v.items) files.old.entries }
    requires unknown { spec.finding file.path (values files.old) ≡ spec.Unknown }
    ensures keyed { IsKeyed (λ v. v.items) files.new.entries }
    ensures ok { OnOk result (values files.new ≡ values files.old ++ file ∷ []) }
    ensures err { OnErr result (values files.new ≡ values files.old) }
{
    let key = file.path.bytes().to_vec(alloc)?;
    files.insert(key, file)?;
    Ok(())
}

// A built-in header as a known file.
fn built_in(alloc: Global, header: Header) -> Result<KnownFile, OutOfMemory>
    ensures { IfOk result (λ file. file ≡ spec.built_in header) }
{
    let path = PathText::apart(alloc, header.name())?;
    let found = Some(List::of(header.text().to_vec(alloc)?));
    Ok(KnownFile { path, found })
}

// Puts the built-in headers.
pub fn built_ins(alloc: Global) -> Result<IndexMap<Vec<u8>, KnownFile>, OutOfMemory>
    ensures keyed { IfOk result (λ files. IsKeyed (λ v. v.items) files.entries) }
    ensures ok { IfOk result (λ files. values files ≡ spec.built_ins) }
{
    let mut files = IndexMap::new(alloc);
    for header in HEADERS.iter() {
        put(alloc, &mut files, built_in(alloc, *header)?)?;
    }
    Ok(files)
}
