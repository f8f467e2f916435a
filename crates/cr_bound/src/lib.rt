//! What is bound of a translation unit but for its operands and initialisers: one call for each action of the grammar
//! (C11 6.2, 6.7, 6.8).
#![tactic(auto)]

mod bound;
mod declaring;
mod members;
mod mentions;
mod pending;
mod place;
mod saved;
mod scoping;
mod specifying;
mod tags;
mod words;

pub use bound::Bound;
pub use pending::Pending;
pub use saved::{Saved, saved_stay};
pub use words::specifier;
