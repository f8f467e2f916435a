//! The facts of texts of the small form, and where facts say that an entity is denoted.
#![tactic(auto)]

mod laws;
mod places;
#[cfg(test)]
mod tests;
mod text_facts;

pub use laws::{a_text_tells_its_own_places, a_text_tells_the_places, places_are_one};
pub use places::places_by_file;
pub use text_facts::{facts_of, key_over};
