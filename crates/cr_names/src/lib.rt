//! The names of a translation unit as binding keeps them: declarations with their types, scopes, and what identifiers do
//! (C11 6.2.1 to 6.2.3).
#![tactic(auto)]

mod fault;
mod names;

ghost use Rattle.cr_names.specs.Names.{NamesStay};

pub use fault::BindFault;
pub use names::{Names, Typed, name_at};

/// As types are added the same names are seen. It does nothing: its contract is the law.
pub fn names_stay()
    ensures { NamesStay }
{}
