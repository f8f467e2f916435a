//! A translation unit from its first file to its facts, over the files that a snapshot knows.
#![tactic(auto)]

mod unit;

pub use unit::{UnitEnd, end_of_unit};
