//! The first of some paths at which a file is there.
ghost use Rattle.std.specs.Prelude.{◌≡◌, IfOk};
ghost use Rattle.cr_snapshot.specs.Files.{finding};
ghost use Rattle.cr_phase4.specs.Search as spec;
ghost use Rattle.cr_preproc.specs.Seen.{seen_search};
ghost use Rattle.cr_preproc.specs.Turning.{IsSmall};

use cr_base::{OutOfMemory, PathNo, PathText};
use cr_snapshot::{Found, Snapshot};
use std::alloc::Global;

// The number and the bytes of the file that is there, that none is, or the paths of which nothing is known
// up to the first that is there.
#[derive(Drop)]
pub enum Search<'a> {
    Finds(PathText, PathNo, &'a [u8]),
    Misses,
    Lacks(Vec<PathText>),
}

fn lacks<'a>(unknown: Vec<PathText>) -> Search<'a>
    ensures { seen_search result ≡ spec.lacks unknown.items spec.Misses }
{
    if unknown.is_empty() {
        Search::Misses
    } else {
        Search::Lacks(unknown)
    }
}

// The search for a file at some paths, in order.
pub fn first_file<'a>(
    alloc: Global,
    snapshot: &'a Snapshot,
    paths: &[PathText],
) -> Result<Search<'a>, OutOfMemory>
    ensures found { IfOk result (λ found. seen_search found ≡ spec.search (λ path. finding path snapshot.now) paths.now) }
    ensures small { IfOk result (λ found. IsSmall found) }
{
    let mut unknown = Vec::new(alloc);
    for i in 0..paths.len() {
        match snapshot.get(&paths[i]) {
            Found::Absent => {}
            Found::Unknown => unknown.push(paths[i].copy(alloc)?)?,
            Found::Known(n, bytes) => {
                if unknown.is_empty() {
                    return Ok(Search::Finds(paths[i].copy(alloc)?, n, bytes));
                }
                return Ok(Search::Lacks(unknown));
            }
        }
    }
    Ok(lacks(unknown))
}
