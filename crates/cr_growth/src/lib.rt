//! The files that a run comes to know, as far as its units want them.
#![tactic(auto)]

ghost use Rattle.cr_growth.specs.Growth.{GrowthIsOne, GrowthAgrees, UnitsStay, WavesAgree};

mod grow;

use cr_phase4::{larger_snapshots_agree, preprocessing_goes_on};
pub use grow::{GrowFault, know_wanted};

/// What the units of a batch come to know is one. It does nothing: its contract is the law.
pub fn growth_is_one()
    ensures { GrowthIsOne }
{}

/// What was known stays known while units go on, with its number; so a unit that wanted no file is preprocessed as
/// before, and one that wanted files does the same first. So it is after each wave. It does nothing: its contract is the law.
pub fn units_stay_as_files_grow()
    ensures agrees { GrowthAgrees }
    ensures units { UnitsStay }
    ensures waves { WavesAgree }
{
    larger_snapshots_agree();
    preprocessing_goes_on();
}
