//! Which macros a machine may be handed.
ghost use Rattle.cr_expand.specs.GoodMacros.{KeepsMacros};

/// The law that the macros of a table are good for a machine: no macros are, and they stay so as
/// lines are carried out, macros taken away and names added. It does no work.
pub fn defined_macros_are_known()
    ensures { KeepsMacros }
{}
