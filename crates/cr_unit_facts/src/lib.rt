//! What a well-formed unit tells of the entities that have the old name and of those that have the new one.
#![tactic(auto)]

mod facts;
mod members;
mod nature;
mod occurring;
mod rows;
mod tokens;
mod uses;

pub use facts::facts_of_unit;
