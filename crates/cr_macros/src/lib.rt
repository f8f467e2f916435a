//! What macro expansion is (C11 6.10.3), with hide sets, and the macros that are defined.
#![tactic(auto)]

ghost use Rattle.cr_macros.specs.Laws.{FollowsTheRules};

mod definition;
mod fault;
mod kinds;
mod macro_table;
mod macros;
mod words;

pub use cr_base::Role;
pub use fault::ExpandFault;
pub use kinds::{is_string, one_token};
pub use macro_table::MacroTable;
pub use macros::{Macro, Seen};
pub use words::{
    Predefined, is_hash, is_ident, is_macro_name, is_mark, is_paste, is_rest, predefined_named,
    text,
};

/// The law that macro expansion is what its rules say of itself, however deep they are used. It does no work.
pub fn expansion_follows_the_rules()
    ensures { FollowsTheRules }
{}

#[cfg(test)]
mod tests;
