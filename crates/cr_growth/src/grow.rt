//! Files that are wanted are read, and made known.
ghost use Rattle.std.specs.Prelude.{◌≡◌, ◌≤◌, ◌<◌, ◌∷◌, ℕ, List as ListOf, [], length, Some, None, Ok, Err, true, false, IfOk, IsTrue};
ghost use Rattle.std.specs.List.{Contains};
ghost use Rattle.cr_world.specs.Outside.{Files, Rose, OnlyRead, ReadsOnly};
ghost use Rattle.cr_snapshot.specs.Files.{finding, apart_paths, Unknown};
ghost use Rattle.cr_snapshot.specs.IncludeSearch as search;
ghost use Rattle.cr_phase4.specs.PreprocessingRun.{Agrees};
ghost use Rattle.cr_phase4.specs.Search.{world_of};
ghost use Rattle.cr_growth.specs.Growth.{with_path, with_wanted, is_there};
ghost use Rattle.cr_growth.specs.Growing.{HasCause, Grows};

use cr_base::{OutOfMemory, PathText};
use cr_phase4::larger_snapshots_agree;
use cr_snapshot::{Found, KnowFault, Snapshot};
use cr_world::{ReadEnd, Tree};
use std::alloc::Global;

// The bytes that a file may have.
const MAX_FILE: usize = 16_777_216;

/// Why no more files are made known.
#[derive(Drop)]
pub enum GrowFault {
    /// A file is longer than 16,777,216 bytes, or one more file or path would pass a limit on all of them.
    LimitFiles,
    /// A read of this path failed.
    ReadFault(PathText),
    /// No memory was found.
    OutOfMemory,
}

impl From<OutOfMemory> for GrowFault {
    ghost use Rattle.std.specs.Prelude.{◌≡◌};
    ghost use Rattle.cr_growth.specs.declared.grow.GrowFault.TheVariants as fault;

    ghost from_gives = { λ _ e. e ≡ fault.OutOfMemory };

    fn from(_: OutOfMemory) -> Self {
        GrowFault::OutOfMemory
    }
}

impl From<KnowFault> for GrowFault {
    ghost use Rattle.std.specs.Prelude.{◌≡◌};
    ghost use Rattle.cr_growth.specs.Growing.{of_fault};

    ghost from_gives = { λ f e. e ≡ of_fault f };

    fn from(fault: KnowFault) -> Self {
        match fault {
            KnowFault::LimitFiles => GrowFault::LimitFiles,
            KnowFault::OutOfMemory => GrowFault::OutOfMemory,
        }
    }
}

fn is_apart(path: &PathText) -> bool
    ensures { result ≡ search.is_apart path.now }
{
    match path.bytes() {
        [b'/', b'/', ..] => true,
        _ => false,
    }
}

fn is_present(snapshot: &Snapshot, path: &PathText) -> bool
    ensures { result ≡ is_there (finding path.now snapshot.now) }
{
    match snapshot.get(path) {
        Found::Known(..) => true,
        Found::Absent | Found::Unknown => false,
    }
}

// What stands at a path that isn't known is read, and made known.
fn read_path<T: Tree>(
    alloc: Global,
    tree: &mut T,
    snapshot: &mut Snapshot,
    path: &PathText,
) -> Result<(), GrowFault>
    requires unknown { finding path.now snapshot.old ≡ Unknown }
    requires plain { search.is_apart path.now ≡ false }
    ensures reads { ReadsOnly (T.files tree.old) (T.files tree.new) (T.reads tree.old) (T.reads tree.new) (T.replaces tree.old) (T.replaces tree.new) (T.replacings tree.old) (T.replacings tree.new) }
    ensures asked { OnlyRead (λ p. p ≡ path.now) (T.readings tree.old) (T.readings tree.new) }
    ensures grows { (files : Files) → T.files tree.old ≡ Some files → Grows (with_path files path.now snapshot.old Unknown) snapshot.old snapshot.new result }
    ensures cause { HasCause (λ p. (p ≡ path.now) × Rose (T.reads tree.old p) (T.reads tree.new p)) result }
    ensures apart { apart_paths snapshot.new ≡ apart_paths snapshot.old }
    ensures agrees { Agrees (world_of snapshot.old) (world_of snapshot.new) }
{
    larger_snapshots_agree();
    let mut bytes = Vec::new(alloc);
    let found = match tree.read(alloc, path, MAX_FILE, &mut bytes) {
        ReadEnd::Bytes => Some(bytes),
        ReadEnd::Absent => None,
        ReadEnd::Long => return Err(GrowFault::LimitFiles),
        ReadEnd::Failed => return Err(GrowFault::ReadFault(path.copy(alloc)?)),
        ReadEnd::OutOfMemory => return Err(GrowFault::OutOfMemory),
    };
    let path = path.copy(alloc)?;
    snapshot.know(path, found)?;
    Ok(())
}

// A path is made known, where it isn't yet.
fn know_path<T: Tree>(
    alloc: Global,
    tree: &mut T,
    snapshot: &mut Snapshot,
    path: &PathText,
) -> Result<(), GrowFault>
    ensures reads { ReadsOnly (T.files tree.old) (T.files tree.new) (T.reads tree.old) (T.reads tree.new) (T.replaces tree.old) (T.replaces tree.new) (T.replacings tree.old) (T.replacings tree.new) }
    ensures asked { OnlyRead (λ p. p ≡ path.now) (T.readings tree.old) (T.readings tree.new) }
    ensures grows { (files : Files) → T.files tree.old ≡ Some files → Grows (with_path files path.now snapshot.old (finding path.now snapshot.old)) snapshot.old snapshot.new result }
    ensures cause { HasCause (λ p. (p ≡ path.now) × Rose (T.reads tree.old p) (T.reads tree.new p)) result }
    ensures apart { apart_paths snapshot.new ≡ apart_paths snapshot.old }
    ensures agrees { Agrees (world_of snapshot.old) (world_of snapshot.new) }
{
    match snapshot.get(path) {
        Found::Known(..) | Found::Absent => Ok(()),
        Found::Unknown => {
            if is_apart(path) {
                return Ok(());
            }
            read_path(alloc, tree, snapshot, path)
        }
    }
}

/// Makes known what stands at these paths of a tree, in order, up to the first at which a file is there. What is known
/// already isn't read again, and a file that is known already ends the search as one that is read does; a path that
/// begins with `//` has no file.
///
/// `LimitFiles` comes exactly where a limit on files would be passed. `ReadFault` comes only where a read of the path that
/// it names, one of these paths, failed in this call. No file of the tree changes, and none but these paths is read; what
/// was made known before an error stays known.
pub fn know_wanted<T: Tree>(
    alloc: Global,
    tree: &mut T,
    snapshot: &mut Snapshot,
    paths: &[PathText],
) -> Result<(), GrowFault>
    ensures reads { ReadsOnly (T.files tree.old) (T.files tree.new) (T.reads tree.old) (T.reads tree.new) (T.replaces tree.old) (T.replaces tree.new) (T.replacings tree.old) (T.replacings tree.new) }
    ensures asked { OnlyRead (λ p. Contains paths.now p) (T.readings tree.old) (T.readings tree.new) }
    ensures grows { (files : Files) → T.files tree.old ≡ Some files → Grows (with_wanted files paths.now snapshot.old) snapshot.old snapshot.new result }
    ensures cause { HasCause (λ p. Contains paths.now p × Rose (T.reads tree.old p) (T.reads tree.new p)) result }
    ensures apart { apart_paths snapshot.new ≡ apart_paths snapshot.old }
    ensures agrees { Agrees (world_of snapshot.old) (world_of snapshot.new) }
{
    match paths {
        [] => Ok(()),
        [path, rest @ ..] => {
            know_path(alloc, tree, snapshot, path)?;
            if is_present(snapshot, path) {
                return Ok(());
            }
            know_wanted(alloc, tree, snapshot, rest)
        }
    }
}
