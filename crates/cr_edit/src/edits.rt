//! The bytes of a file with the new name in the old one's place.
ghost use Rattle.std.specs.Prelude.{◌≡◌, ◌-◌, length, take, drop, IfOk};
ghost use Rattle.cr_base.specs.Substitution.{substituted};

use cr_base::{List, OutOfMemory, PathText};
use std::alloc::Global;

/// A file that changes: the offsets at which the old name stands in it, in bytes from 0, and its new bytes.
#[derive(Drop)]
pub struct FileEdit {
    pub path: PathText,
    pub offsets: List<u32>,
    pub edited: List<u8>,
}

// The first so many bytes, or all where there are fewer.
fn front(bytes: &[u8], count: usize) -> &[u8]
    ensures { result.now ≡ take count bytes.now }
{
    &bytes[..count.min(bytes.len())]
}

// What stands behind the first so many bytes.
fn behind(bytes: &[u8], count: usize) -> &[u8]
    ensures { result.now ≡ drop count bytes.now }
{
    &bytes[count.min(bytes.len())..]
}

/// The bytes with the new text in the place of `old_len` bytes at each of the offsets. The offsets are in bytes from 0
/// in the old bytes; where they rise, don't overlap and lie inside, each byte between them stays.
pub fn apply(
    alloc: Global,
    bytes: &[u8],
    offsets: &[u32],
    old_len: u32,
    new: &[u8],
) -> Result<Vec<u8>, OutOfMemory>
    ensures { IfOk result (λ v. v.items ≡ substituted offsets.now old_len new.now bytes.now) }
{
    let mut edited = Vec::new(alloc);
    let mut rest = bytes;
    let mut from: usize = 0;
    for offset in offsets {
        let offset = *offset as usize;
        edited.extend_from_slice(front(rest, offset.saturating_sub(from)))?;
        edited.extend_from_slice(new)?;
        let next = offset + old_len as usize;
        rest = behind(rest, next.saturating_sub(from));
        from = next;
    }
    edited.extend_from_slice(rest)?;
    Ok(edited)
}
