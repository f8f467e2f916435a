//! The facts that the preprocessing of a unit tells.
#![tactic(auto)]

mod places;
mod roles;
mod trace;

pub use trace::add_trace;
