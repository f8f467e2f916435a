//! What the tokens, actions and asks of a translation unit do to what is bound of it, and what the end of a node puts back
//! (C11 6.2, 6.5, 6.7, 6.8).
#![tactic(auto)]

mod acting;
mod binding;
mod declaring;
mod ends;
mod expressions;
mod initialising;
mod scoping;
mod specifying;
mod tagging;
mod words;

pub use acting::Spot;
pub use binding::Binding;
pub use ends::{Kept, Saving, kept_stays};
pub use words::Words;
