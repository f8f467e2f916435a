//! The facts of a unit from what is kept of its binding.
#![tactic(auto)]

mod facts;
mod rows;

pub use facts::facts_of_bound;
