//! Laws on how a unit ends: what is told of it is what its meaning tells, and it ends so where more files are known.
#![tactic(auto)]

ghost use Rattle.cr_unit_end_law.specs.Telling.{UnitsTell, EndedUnitsStay};

use cr_phase4::preprocessing_goes_on;
use cr_read_law::read_units_mean_their_tokens;

/// Where a unit ends with facts, its main file is there, and it has a meaning (C11 5.1.1.2, 6.9), of which these are exactly
/// the facts: those of its preprocessing, and those of its binding.
///
/// It does nothing: its contract is the law.
pub fn units_tell_their_facts()
    ensures { UnitsTell }
{
    read_units_mean_their_tokens();
}

/// A unit that has ended over the files that are known, with facts or with a cause, ends so where more files are known.
///
/// It does nothing: its contract is the law.
pub fn ended_units_stay()
    ensures { EndedUnitsStay }
{
    preprocessing_goes_on();
}
