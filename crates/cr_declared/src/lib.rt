//! The declarations of a translation unit, found by scope and name (C11 6.2.1 to 6.2.3).
#![tactic(auto)]

ghost use Rattle.cr_declared.specs.Known.{RepeatsThrough};

mod declared;
mod rows;
mod table;

pub use declared::Declared;
pub use rows::{Row, Slot, UseRow};

/// What may repeat a declaration that may repeat another may repeat that. It does nothing: its contract is the law.
pub fn repeats_go_through()
    ensures { RepeatsThrough }
{}
