//! The law that the tokens which are read of a unit are those of its meaning.
#![tactic(auto)]

ghost use Rattle.cr_read_law.specs.ReadUnits.{ReadUnitsMean};

/// Where a unit was preprocessed whole, its final tokens became tokens, and these are well-formed, the unit has the meaning
/// of these tokens and their tree (C11 5.1.1.2, 6.9): in the table that was read the two names have the numbers that were
/// told, and what was kept for a renaming is the trace of the unit's events.
///
/// It does nothing: its contract is the law.
pub fn read_units_mean_their_tokens()
    ensures { ReadUnitsMean }
{}
