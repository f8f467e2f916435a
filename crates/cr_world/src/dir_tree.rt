//! A tree of files on a disk.
ghost use Rattle.std.specs.Prelude.{◌≡◌, ◌++◌, ◌<◌, [], length, Some, List, ℕ, IfOk, codes};
ghost use Rattle.cr_world.specs.Outside.{Files, HandsOver, SaysOfFile, ReplaceTells};
ghost use Rattle.cr_world.specs.Disks.{Leaves, Appends, Drafts};

use crate::disk::{Disk, OpenFault};
use crate::{DoneEnd, History, ReadEnd, Tree};
use cr_base::{OutOfMemory, PathText};
use std::alloc::Global;
use std::io::Read;

/// The files of a disk. It tells what the disk tells, and keeps one count of failed reads and one of failed replaces for
/// all paths.
///
/// A file is replaced through a neighbour, named like it with `.crename~` behind, which is made anew, gets the file's
/// mode, is written and synced, and then renamed. Where anything stands at the neighbour's path, or no regular file at
/// the file's, the replace fails and touches nothing; where it fails later, the neighbour is taken away again. Of a
/// symbolic link the file that it leads to is replaced.
#[derive(Drop)]
pub struct DirTree<D: Disk + Drop> {
    disk: D,
    alloc: Global,
    reads: u64,
    replaces: u64,
    history: History,
}

impl<D: Disk + Drop> DirTree<D> {
    /// The files of a disk, with no call so far.
    pub fn new(alloc: Global, disk: D) -> DirTree<D> {
        DirTree {
            disk,
            alloc,
            reads: 0,
            replaces: 0,
            history: History::new(),
        }
    }

    /// The disk on which the files stand.
    pub fn disk(&self) -> &D
        ensures { result.now ≡ self.now.disk }
    {
        &self.disk
    }
}

impl<D: Disk + Drop> Tree for DirTree<D> {
    ghost use Rattle.cr_world.specs.Histories.{reads_in, replaces_in};

    ghost files = { λ t. D.files t.disk };

    ghost reads = { λ t path. t.reads };

    ghost replaces = { λ t path. t.replaces };

    ghost readings = { λ t. reads_in t.history };

    ghost replacings = { λ t. replaces_in t.history };

    fn read(&mut self, _alloc: Global, path: &PathText, max: usize, into: &mut Vec<u8>) -> ReadEnd {
        let end = read_file(&self.disk, path.bytes(), max, into);
        if matches!(end, ReadEnd::Failed) {
            self.reads = self.reads.saturating_add(1);
        }
        self.history.add_read(path, into);
        end
    }

    fn replace(&mut self, path: &PathText, bytes: &[u8]) -> DoneEnd {
        self.history.add_replace(path);
        let end = replace_file(&mut self.disk, self.alloc, path.bytes(), bytes);
        if matches!(end, DoneEnd::Failed) {
            self.replaces = self.replaces.saturating_add(1);
        }
        end
    }
}

fn read_file<D: Disk>(disk: &D, path: &[u8], max: usize, into: &mut Vec<u8>) -> ReadEnd
    ensures handed { HandsOver result max into.new.items }
    ensures file { (told : Files) → D.files disk.now ≡ Some told → SaysOfFile result max into.new.items (told path.now) }
{
    into.clear();
    match disk.open(path) {
        Ok(mut file) => fill(&mut file, max, into),
        Err(OpenFault::Absent) => ReadEnd::Absent,
        Err(OpenFault::Failed) => ReadEnd::Failed,
    }
}

// Reads on until the end, and at most one byte more than `max`.
fn fill<F: Read>(file: &mut F, max: usize, into: &mut Vec<u8>) -> ReadEnd
    ensures handed { HandsOver result max into.new.items }
    ensures file { (left : List ℕ) → F.remaining file.old ≡ Some left → SaysOfFile result max into.new.items (Some left) }
{
    let mut buffer = [0u8; 4096];
    into.clear();
    'chunks: while into.len() <= max {
        let room = max - into.len();
        let wanted = if room < 4096 { room + 1 } else { 4096 };
        match file.read(&mut buffer[..wanted]) {
            Ok(0) => return ReadEnd::Bytes,
            Ok(count) => {
                if into.extend_from_slice(&buffer[..count]).is_err() {
                    into.clear();
                    return ReadEnd::OutOfMemory;
                }
            }
            Err(_) => {
                into.clear();
                return ReadEnd::Failed;
            }
        }
    }
    into.clear();
    ReadEnd::Long
}

// Replaces the file that a path means.
fn replace_file<D: Disk>(disk: &mut D, alloc: Global, path: &[u8], bytes: &[u8]) -> DoneEnd
    ensures { ReplaceTells result path.now bytes.now (D.files disk.old) (D.files disk.new) }
{
    let Some(target) = disk.target(alloc, path) else {
        return DoneEnd::Failed;
    };
    match neighbour(alloc, &target) {
        Ok(beside) => replace_through(disk, &target, &beside, bytes),
        Err(_) => DoneEnd::Failed,
    }
}

// The path of the file that is written first.
fn neighbour(alloc: Global, path: &[u8]) -> Result<Vec<u8>, OutOfMemory>
    ensures { IfOk result (λ beside. beside.items ≡ path.now ++ codes ".crename~") }
{
    let mut beside = path.to_vec(alloc)?;
    beside.extend_from_slice(b".crename~")?;
    Ok(beside)
}

// Writes a file beside the one that is meant, and renames it.
fn replace_through<D: Disk>(disk: &mut D, path: &[u8], beside: &[u8], bytes: &[u8]) -> DoneEnd
    requires apart { length path.now < length beside.now }
    ensures { ReplaceTells result path.now bytes.now (D.files disk.old) (D.files disk.new) }
{
    let Some(draft) = disk.make(beside) else {
        return DoneEnd::Failed;
    };
    let mut end = write_draft(disk, draft, path, bytes);
    if matches!(end, DoneEnd::Done) {
        end = disk.rename(beside, path);
    }
    if matches!(end, DoneEnd::Failed) {
        disk.remove(beside);
    }
    end
}

// Writes a file that was made, with the mode of another one.
fn write_draft<D: Disk>(disk: &mut D, mut draft: D::Draft, of: &[u8], bytes: &[u8]) -> DoneEnd
    ensures { Leaves (λ before now. before (D.place draft) ≡ Some [] → Drafts result (D.place draft) bytes.now before now) (D.files disk.old) (D.files disk.new) }
{
    match disk.take_mode(&mut draft, of) {
        DoneEnd::Done => write_synced(disk, &mut draft, bytes),
        DoneEnd::Failed => DoneEnd::Failed,
    }
}

fn write_synced<D: Disk>(disk: &mut D, draft: &mut D::Draft, bytes: &[u8]) -> DoneEnd
    ensures { Leaves (Appends result (D.place draft.old) bytes.now) (D.files disk.old) (D.files disk.new) }
{
    match disk.write(draft, bytes) {
        DoneEnd::Done => disk.sync(draft),
        DoneEnd::Failed => DoneEnd::Failed,
    }
}
