//! The law that the tokens of a unit mean one thing.
#![tactic(auto)]

ghost use Rattle.cr_unit_law.specs.OneMeaning.{UnitsHaveOneTree, FirstFaultsAreOne, WellFormedUnitsHaveNone};

/// The tokens of a well-formed unit have one tree, and so one binding (C11 6.9): what each identifier means settles how a
/// typedef name is read. Of any unit the first fault of binding is one, and a well-formed unit has none.
///
/// It does nothing: its contract is the law.
pub fn units_are_one()
    ensures trees { UnitsHaveOneTree }
    ensures faults { FirstFaultsAreOne }
    ensures none { WellFormedUnitsHaveNone }
{}
