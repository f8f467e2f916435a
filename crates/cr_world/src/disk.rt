//! What a disk does, call by call.
ghost use Rattle.std.specs.Prelude.{◌≡◌, List, ℕ, Option, None, Some, IfOk, IfSome, OnErr, is_some};
ghost use Rattle.cr_world.specs.Outside.{Files};
ghost use Rattle.cr_world.specs.Disks.{Leaves, Opens, SameFiles, Makes, Appends, Renames, Removes};

use crate::DoneEnd;
use std::alloc::Global;
use std::io::Read;

/// Why a file wasn't opened.
#[derive(Clone, Copy, Debug, PartialEq, Eq)]
pub enum OpenFault {
    /// Nothing is there.
    Absent,
    /// It isn't a regular file, or can't be opened.
    Failed,
}

/// The calls by which files are read and replaced. A disk tells its files, as a map from path to bytes, or nothing of
/// them; one that tells them has no symbolic link.
pub trait Disk {
    /// A file that is read.
    type Reader: Read + Drop;

    /// A file that was made anew and is written.
    type Draft: Drop;

    /// The files, where the disk tells them.
    ghost files: { Self → Option (List ℕ → Option (List ℕ)) };

    /// The path at which a file was made.
    ghost place: { Self.Draft → List ℕ };

    /// Opens the regular file at a path, or what the link there leads to. It never waits.
    fn open(&self, path: &[u8]) -> Result<Self::Reader, OpenFault>
        ensures bytes { (told : Files) → files self.now ≡ Some told → IfOk result (λ reader. Opens (Self.Reader.remaining reader) (told path.now)) }
        ensures absent { (told : Files) → files self.now ≡ Some told → result ≡ Err OpenFault.Absent → told path.now ≡ None };

    /// The path of the regular file that is meant by a path: what a link leads to, and any other path itself. Nothing
    /// where no such file is there.
    fn target(&self, alloc: Global, path: &[u8]) -> Option<Vec<u8>>
        ensures own { (told : Files) → files self.now ≡ Some told → IfSome result (λ found. found.items ≡ path.now) };

    /// Makes an empty file, which no one but its owner may open, at a path at which nothing stands.
    fn make(&mut self, path: &[u8]) -> Option<Self::Draft>
        ensures place { (told : Files) → files self.old ≡ Some told → IfSome result (λ draft. place draft ≡ path.now) }
        ensures files { Leaves (Makes (is_some result) path.now) (files self.old) (files self.new) };

    /// Gives a file that was made the mode of the file at a path.
    fn take_mode(&mut self, draft: &mut Self::Draft, of: &[u8]) -> DoneEnd
        ensures place { place draft.new ≡ place draft.old }
        ensures files { Leaves SameFiles (files self.old) (files self.new) };

    /// Puts bytes behind those of a file that was made.
    fn write(&mut self, draft: &mut Self::Draft, bytes: &[u8]) -> DoneEnd
        ensures place { place draft.new ≡ place draft.old }
        ensures files { Leaves (Appends result (place draft.old) bytes.now) (files self.old) (files self.new) };

    /// Waits until what was written is on the disk.
    fn sync(&mut self, draft: &mut Self::Draft) -> DoneEnd
        ensures place { place draft.new ≡ place draft.old }
        ensures files { Leaves SameFiles (files self.old) (files self.new) };

    /// Renames a file, in one step, to a path whose file it replaces.
    fn rename(&mut self, from: &[u8], to: &[u8]) -> DoneEnd
        ensures files { Leaves (Renames result from.now to.now) (files self.old) (files self.new) };

    /// Takes a file that was made away again.
    fn remove(&mut self, path: &[u8])
        ensures files { Leaves (Removes path.now) (files self.old) (files self.new) };
}
