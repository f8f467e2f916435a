//! The sums on which the limits are set.
ghost use Rattle.std.specs.Prelude.{◌≡◌, ◌≤◌, ◌+◌, Some, None, if◌then◌else◌};
ghost use Rattle.cr_snapshot.specs.Files as files;
ghost use Rattle.cr_snapshot.specs.Totals as spec;

use crate::known::KnownFile;
use crate::search::is_apart;
use cr_base::List;

const MOST_BYTES_OF_A_FILE: usize = 16_777_216;

const MOST_PRESENT: usize = 65_536;

const MOST_BYTES: usize = 536_870_912;

const MOST_PATHS: usize = 4_194_304;

/// How many paths are known, how many of them are there, and their bytes together. Paths that begin
/// with `//` don't count.
#[derive(Clone, Copy, Debug, PartialEq, Eq)]
pub struct Totals {
    pub paths: usize,
    pub present: usize,
    pub bytes: usize,
}

fn presence(found: &Option<List<u8>>) -> usize
    ensures { result ≡ files.presence found.now }
{
    match found {
        None => 0,
        Some(_) => 1,
    }
}

fn size(found: &Option<List<u8>>) -> usize
    ensures { result ≡ files.size found.now }
{
    match found {
        None => 0,
        Some(bytes) => bytes.items().len(),
    }
}

// The sums with one more file.
fn added(totals: Totals, file: &KnownFile) -> Totals
    requires small { spec.AreSmall totals }
    requires size { files.size file.now.found ≤ 16777216 }
    ensures { result ≡ spec.added totals file.now }
{
    if is_apart(file.path.bytes()) {
        return totals;
    }
    Totals {
        paths: totals.paths + 1,
        present: totals.present + presence(&file.found),
        bytes: totals.bytes + size(&file.found),
    }
}

// Whether one of the sums is over its limit.
fn are_large(totals: Totals) -> bool
    ensures { result ≡ spec.are_large totals }
{
    totals.present > MOST_PRESENT || totals.bytes > MOST_BYTES || totals.paths > MOST_PATHS
}

/// The sums with one more file, or nothing where a limit is passed.
pub fn totals_with(totals: Totals, file: &KnownFile) -> Option<Totals>
    requires { spec.AreSmall totals }
    ensures { result ≡ spec.totals_with totals file.now }
{
    if size(&file.found) > MOST_BYTES_OF_A_FILE {
        return None;
    }
    let totals = added(totals, file);
    if are_large(totals) {
        None
    } else {
        Some(totals)
    }
}
