//! The definition of preprocessing (C11 5.1.1.2 phase 4, 6.10), which computes, and laws over it.
#![tactic(auto)]

ghost use Rattle.cr_phase4.specs.PreprocessingRun.{GoesOn, SnapshotsAgree};

mod conditionals;

pub use conditionals::{Group, OpenIf, Word};
use cr_snapshot::known_files_stay_known;

/// Where more files are known, a unit that wanted no file is preprocessed as before, and one that wanted
/// files does the same first. It does nothing: its contract is the law.
pub fn preprocessing_goes_on()
    ensures { GoesOn }
{}

/// A snapshot of which one more file is known still knows what it knew, with the same numbers. It does
/// nothing: its contract is the law.
pub fn larger_snapshots_agree()
    ensures { SnapshotsAgree }
{
    known_files_stay_known();
}
