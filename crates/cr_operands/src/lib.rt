//! The types of operands of expressions, and the objects that initialisers are for, as a unit is bound (C11 6.5, 6.7.9).
#![tactic(auto)]

mod fault;
mod operands;
mod operators;
mod target;
mod values;

ghost use Rattle.cr_operands.specs.Laws.{OperandsStay, TargetsStay, GrowthsFollow};

pub use fault::OperandFault;
pub use operands::Operands;
pub use operators::is_arrow;
pub use target::Target;

/// As types are added the same operands are seen. It does nothing: its contract is the law.
pub fn operands_stay()
    ensures { OperandsStay }
{}

/// As types are added a target is the same. It does nothing: its contract is the law.
pub fn targets_stay()
    ensures { TargetsStay }
{}

/// What stays in two changes, one after the other, stays in both. It does nothing: its contract is the law.
pub fn growths_follow()
    ensures { GrowthsFollow }
{}
