//! The class of entities that a rename takes together, and whether it may be done.
#![tactic(auto)]

mod answer;
mod class;
mod declarations;
mod files;
mod graph;
mod kinds;
mod laws;
mod places;
mod question;
mod refusal;
mod sets;
mod sharing;
mod steps;
mod target;
#[cfg(test)]
mod tests;
mod uses;

pub use answer::verdict;
pub use class::{Class, ClassFault, class_of};
pub use laws::an_accepted_verdict_tells_of_each_fact;
pub use refusal::{Refusal, VerdictFault};
pub use target::Target;
