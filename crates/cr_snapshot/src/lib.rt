//! The files that a run knows.
#![tactic(auto)]

mod header;
mod known;
mod search;
mod snapshot;
#[cfg(test)]
mod tests;
mod totals;

pub use known::KnownFile;
pub use snapshot::{Found, KnowFault, Snapshot, known_files_stay_known};
