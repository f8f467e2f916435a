//! The whole tool as one call.
#![tactic(auto)]

mod edits;
mod entries;
mod goal;
mod laws;
mod number;
mod plan;
mod refusal;
mod report;
mod survey;
#[cfg(test)]
mod tests;
mod top;
mod units;
mod write;

pub use laws::{an_accepted_rename_keeps_the_meaning, the_outcome_is_one};
pub use top::crename_serial;
