//! The grammar of translation units, as a table that is read with two tokens of look-ahead.
#![tactic(auto)]

mod spelling;
mod symbols;
mod table;

pub use spelling::spellings;
pub use symbols::{Action, Alternative, Guard, NonTerm, Symbol, Term};
pub use table::alternatives;

#[cfg(test)]
mod tests;
