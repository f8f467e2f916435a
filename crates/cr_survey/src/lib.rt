//! The units of a run, in batches, up to the facts of them all.
#![tactic(auto)]

mod batch;
mod refusals;
mod running;
mod units;
mod words;

pub use refusals::{of_growth, place_text};
pub use running::Renaming;
pub use units::survey;
