//! Where the file of an include is (C11 6.10.2).
ghost use Rattle.std.specs.Prelude.{◌≡◌, ◌<◌, Some, IfOk, length, slice_get};
ghost use Rattle.std.specs.Option.{option_map};
ghost use Rattle.cr_snapshot.specs.Files.{finding};
ghost use Rattle.cr_snapshot.specs.IncludeSearch.{candidates};
ghost use Rattle.cr_phase4.specs.Search as spec;
ghost use Rattle.cr_preproc.specs.Seen.{seen_search};

use crate::header::Header;
use crate::search::{Search, first_file};
use cr_base::{OutOfMemory, PathNo, Unit};
use cr_snapshot::Snapshot;
use std::alloc::Global;

// The search for the file that an include in a file names.
pub fn included<'a>(
    alloc: Global,
    snapshot: &'a Snapshot,
    unit: &Unit,
    from: PathNo,
    header: &Header,
) -> Result<Search<'a>, OutOfMemory>
    requires { from.0 < length snapshot.now }
    ensures { IfOk result (λ found. option_map (λ file. spec.search (λ path. finding path snapshot.now) (candidates unit.now file.path header.now.angled header.now.name.items))
        (slice_get snapshot.now from.0) ≡ Some (seen_search found)) }
{
    let paths = snapshot.candidates(alloc, unit, from, header.angled, &header.name)?;
    let found = first_file(alloc, snapshot, &paths)?;
    Ok(found)
}
