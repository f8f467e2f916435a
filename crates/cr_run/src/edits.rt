//! The files that change, with the new name in the old one's place.
ghost use Rattle.std.specs.Prelude.{◌≡◌, length, map, IfOk};
ghost use Rattle.cr_base.specs.Substitution.{Rise, substituted};
ghost use Rattle.cr_run.specs.Editing.{AllRise, edits_of};

use crate::survey::{Survey, Surveyed};
use cr_base::{List, OutOfMemory, PathText};
use std::alloc::Global;

/// A file that changes: where the old name stands in it, and its new bytes.
#[derive(Drop)]
pub struct FileEdit {
    pub path: PathText,
    pub offsets: List<usize>,
    pub edited: List<u8>,
}

/// The files of a survey in which the old name stands, with the new name in its place. `places` has the places of
/// each file by its number.
pub fn edit_files(
    alloc: Global,
    survey: &Survey,
    places: &[Vec<usize>],
    old: &[u8],
    new: &[u8],
) -> Result<Vec<FileEdit>, OutOfMemory>
    requires { AllRise (map (λ v. v.items) places.now) old.now survey.now.files.entries }
    ensures { IfOk result (λ v. v.items ≡ edits_of (map (λ v. v.items) places.now) old.now new.now survey.now.files.entries) }
{
    let mut edits = Vec::new(alloc);
    for (path, found) in survey.files.iter() {
        let offsets = places[found.number as usize].as_slice();
        if !offsets.is_empty() {
            edits.push(edit_file(alloc, path, offsets, found, old, new)?)?;
        }
    }
    Ok(edits)
}

fn edit_file(
    alloc: Global,
    path: &PathText,
    offsets: &[usize],
    found: &Surveyed,
    old: &[u8],
    new: &[u8],
) -> Result<FileEdit, OutOfMemory>
    requires { Rise 0 offsets.now (length old.now) (length found.now.bytes) }
    ensures { IfOk result (λ edit. edit ≡ record { path = path.now; offsets = offsets.now; edited = substituted offsets.now (length old.now) new.now found.now.bytes }) }
{
    let edited = apply(alloc, found.bytes.items(), offsets, old.len(), new)?;
    Ok(FileEdit {
        path: path.copy(alloc)?,
        offsets: List::of(offsets.to_vec(alloc)?),
        edited: List::of(edited),
    })
}

/// The bytes with the new text in the place of `old_len` bytes at each of the offsets.
pub fn apply(
    alloc: Global,
    bytes: &[u8],
    offsets: &[usize],
    old_len: usize,
    new: &[u8],
) -> Result<Vec<u8>, OutOfMemory>
    requires { Rise 0 offsets.now old_len (length bytes.now) }
    ensures { IfOk result (λ v. v.items ≡ substituted offsets.now old_len new.now bytes.now) }
{
    let mut edited = Vec::new(alloc);
    let mut from = 0;
    for offset in offsets {
        edited.extend_from_slice(&bytes[from..*offset])?;
        edited.extend_from_slice(new)?;
        from = *offset + old_len;
    }
    edited.extend_from_slice(&bytes[from..])?;
    Ok(edited)
}
