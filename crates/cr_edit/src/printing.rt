//! The report of a rename.
ghost use Rattle.std.specs.Prelude.{◌≡◌, ◌++◌, map, length, IfOk, IfSome, OnOk};
ghost use Rattle.std.specs.List.{flat_map};
ghost use Rattle.cr_edit.specs.Report as spec;
ghost use Rattle.cr_edit.specs.Seen.{edit_of_code, edited_lines, all_edited_lines};

use crate::edits::FileEdit;
use cr_base::OutOfMemory;
use cr_goal::{Skip, push_number};
use std::alloc::Global;

/// The names of a rename, and how many units there are.
#[derive(Clone, Copy)]
pub struct Head<'a> {
    pub old: &'a [u8],
    pub new: &'a [u8],
    pub units: usize,
}

/// The report of a rename: the two first lines, a line for each edit and for each skipped entry, and
/// the changed files where they aren't written.
pub fn report(
    alloc: Global,
    head: &Head,
    edits: &[FileEdit],
    skipped: &[Skip],
    in_place: bool,
) -> Result<Vec<u8>, OutOfMemory>
    ensures { IfOk result (λ v. v.items
        ≡ spec.head_text head.now.old.now head.now.new.now head.now.units (length skipped.now) (map edit_of_code edits.now)
        ++ flat_map spec.edit_lines (map edit_of_code edits.now)
        ++ flat_map spec.skip_line (skipped.now)
        ++ all_edited_lines edits.now in_place) }
{
    let mut text = head_text(alloc, head, edits, skipped.len())?;
    push_edits(alloc, &mut text, edits)?;
    push_skips(alloc, &mut text, skipped)?;
    if !in_place {
        push_files(alloc, &mut text, edits)?;
    }
    Ok(text)
}

// The two first lines.
fn head_text(
    alloc: Global,
    head: &Head,
    edits: &[FileEdit],
    skipped: usize,
) -> Result<Vec<u8>, OutOfMemory>
    ensures { IfOk result (λ v. v.items ≡ spec.head_text head.now.old.now head.now.new.now head.now.units skipped (map edit_of_code edits.now)) }
{
    let count = count_places(edits).ok_or(OutOfMemory)?;
    let mut text = b"renamed ".to_vec(alloc)?;
    text.extend_from_slice(head.old)?;
    text.extend_from_slice(b" to ")?;
    text.extend_from_slice(head.new)?;
    push_count(alloc, &mut text, b"\nunits ", head.units)?;
    push_count(alloc, &mut text, b", skipped ", skipped)?;
    push_count(alloc, &mut text, b", files ", edits.len())?;
    push_count(alloc, &mut text, b", edits ", count)?;
    text.push(b'\n')?;
    Ok(text)
}

fn push_count(
    alloc: Global,
    text: &mut Vec<u8>,
    what: &[u8],
    count: usize,
) -> Result<(), OutOfMemory>
    ensures { OnOk result (text.new.items ≡ text.old.items ++ spec.count_text what.now count) }
{
    text.extend_from_slice(what)?;
    push_number(alloc, text, count)
}

// How many places there are, unless no number of the machine can say it.
fn count_places(edits: &[FileEdit]) -> Option<usize>
    ensures { IfSome result (λ n. n ≡ spec.count_places (map edit_of_code edits.now)) }
{
    let mut count: usize = 0;
    for edit in edits {
        count = count.checked_add(edit.offsets.items().len())?;
    }
    Some(count)
}

fn push_edits(alloc: Global, text: &mut Vec<u8>, edits: &[FileEdit]) -> Result<(), OutOfMemory>
    ensures { OnOk result (text.new.items ≡ text.old.items ++ flat_map spec.edit_lines (map edit_of_code edits.now)) }
{
    for edit in edits {
        push_places(alloc, text, edit.path.bytes(), edit.offsets.items())?;
    }
    Ok(())
}

fn push_places(
    alloc: Global,
    text: &mut Vec<u8>,
    path: &[u8],
    offsets: &[u32],
) -> Result<(), OutOfMemory>
    ensures { OnOk result (text.new.items ≡ text.old.items ++ flat_map (spec.edit_line path.now) offsets.now) }
{
    for offset in offsets {
        push_place(alloc, text, path, *offset)?;
    }
    Ok(())
}

fn push_place(
    alloc: Global,
    text: &mut Vec<u8>,
    path: &[u8],
    offset: u32,
) -> Result<(), OutOfMemory>
    ensures { OnOk result (text.new.items ≡ text.old.items ++ spec.edit_line path.now offset) }
{
    text.extend_from_slice(b"edit ")?;
    text.extend_from_slice(path)?;
    text.push(b' ')?;
    push_number(alloc, text, offset as usize)?;
    text.push(b'\n')?;
    Ok(())
}

fn push_skips(alloc: Global, text: &mut Vec<u8>, skipped: &[Skip]) -> Result<(), OutOfMemory>
    ensures { OnOk result (text.new.items ≡ text.old.items ++ flat_map spec.skip_line (skipped.now)) }
{
    for skip in skipped {
        push_skip(alloc, text, skip)?;
    }
    Ok(())
}

fn push_skip(alloc: Global, text: &mut Vec<u8>, skip: &Skip) -> Result<(), OutOfMemory>
    ensures { OnOk result (text.new.items ≡ text.old.items ++ spec.skip_line (skip.now)) }
{
    text.extend_from_slice(b"skip ")?;
    push_number(alloc, text, skip.number as usize)?;
    text.push(b' ')?;
    text.extend_from_slice(skip.path.bytes())?;
    text.push(b'\n')?;
    Ok(())
}

fn push_files(alloc: Global, text: &mut Vec<u8>, edits: &[FileEdit]) -> Result<(), OutOfMemory>
    ensures { OnOk result (text.new.items ≡ text.old.items ++ flat_map edited_lines edits.now) }
{
    for edit in edits {
        push_file(alloc, text, edit.path.bytes(), edit.edited.items())?;
    }
    Ok(())
}

fn push_file(
    alloc: Global,
    text: &mut Vec<u8>,
    path: &[u8],
    bytes: &[u8],
) -> Result<(), OutOfMemory>
    ensures { OnOk result (text.new.items ≡ text.old.items ++ spec.file_lines path.now bytes.now) }
{
    text.extend_from_slice(b"file ")?;
    text.extend_from_slice(path)?;
    text.push(b' ')?;
    push_number(alloc, text, bytes.len())?;
    text.push(b'\n')?;
    text.extend_from_slice(bytes)?;
    text.push(b'\n')?;
    Ok(())
}
