//! The edits of places.
ghost use Rattle.std.specs.Prelude.{◌≡◌, ◌≤◌, map, length, IfOk, OnOk};
ghost use Rattle.cr_class.specs.ShownOrder as shown;
ghost use Rattle.cr_class.specs.Verdict.{present_bytes};
ghost use Rattle.cr_snapshot.specs.Files.{finding};
ghost use Rattle.cr_plan.specs.Outcome.{with_offset, offsets_of};
ghost use Rattle.cr_plan.specs.Editing.{shown_entries, edit_over};

use cr_base::{List, OutOfMemory, PathText, Place};
use cr_edit::{FileEdit, apply};
use cr_snapshot::{Found, Snapshot};
use std::alloc::Global;
use std::collections::BTreeMap;

fn path_of(alloc: Global, snapshot: &Snapshot, place: Place) -> Result<PathText, OutOfMemory>
    ensures { IfOk result (λ path. path ≡ shown.path_of snapshot.now place) }
{
    match snapshot.path_at(place.path) {
        Some(path) => path.copy(alloc),
        None => Ok(PathText::empty(alloc)),
    }
}

fn add_offset(
    alloc: Global,
    by_path: &mut BTreeMap<PathText, Vec<u32>>,
    path: PathText,
    offset: u32,
) -> Result<(), OutOfMemory>
    ensures { OnOk result (shown_entries by_path.new.entries ≡ with_offset path offset (shown_entries by_path.old.entries)) }
{
    if let Some(offsets) = by_path.get_mut(&path) {
        offsets.push(offset)?;
        return Ok(());
    }
    let mut offsets = Vec::new(alloc);
    offsets.push(offset)?;
    by_path.insert(path, offsets)?;
    Ok(())
}

// The offsets of places, by the paths of their files.
fn by_path(
    alloc: Global,
    snapshot: &Snapshot,
    places: &[Place],
) -> Result<BTreeMap<PathText, Vec<u32>>, OutOfMemory>
    ensures { IfOk result (λ made. shown_entries made.entries ≡ offsets_of snapshot.now places.now) }
{
    let mut by_path = BTreeMap::new(alloc);
    for place in places {
        let path = path_of(alloc, snapshot, *place)?;
        add_offset(alloc, &mut by_path, path, place.offset)?;
    }
    Ok(by_path)
}

// The bytes of the file at a path.
fn bytes_at<'a>(snapshot: &'a Snapshot, path: &PathText) -> &'a [u8]
    ensures { result.now ≡ present_bytes (finding path.now snapshot.now) }
{
    match snapshot.get(path) {
        Found::Known(_, bytes) => bytes,
        _ => &[],
    }
}

fn edit_file(
    alloc: Global,
    snapshot: &Snapshot,
    path: &PathText,
    offsets: &[u32],
    old_len: u32,
    new: &[u8],
) -> Result<FileEdit, OutOfMemory>
    ensures { IfOk result (λ edit. edit ≡ edit_over snapshot.now old_len new.now (path.now, offsets.now)) }
{
    let edited = apply(alloc, bytes_at(snapshot, path), offsets, old_len, new)?;
    Ok(FileEdit {
        path: path.copy(alloc)?,
        offsets: List::of(offsets.to_vec(alloc)?),
        edited: List::of(edited),
    })
}

/// The files in which the places are, in the order of their paths, with the new name in the place of the old one.
pub fn edit_files(
    alloc: Global,
    snapshot: &Snapshot,
    places: &[Place],
    old_len: u32,
    new: &[u8],
) -> Result<Vec<FileEdit>, OutOfMemory>
    ensures { IfOk result (λ v. v.items ≡ map (edit_over snapshot.now old_len new.now) (offsets_of snapshot.now places.now)) }
{
    let by_path = by_path(alloc, snapshot, places)?;
    let mut edits = Vec::new(alloc);
    for (path, offsets) in by_path.iter() {
        edits.push(edit_file(alloc, snapshot, path, offsets, old_len, new)?)?;
    }
    Ok(edits)
}
