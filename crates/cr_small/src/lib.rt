//! The small form of C: its tokens, its derivation, what its names denote, and the law that a rename keeps it all.
#![tactic(auto)]

mod binder;
mod grammar;
mod keyword;
mod laws;
mod renaming;
mod scopes;
mod spelling;
mod terminal;
#[cfg(test)]
mod tests;
mod text;

pub use binder::Denotation;
pub use laws::{
    a_target_has_a_place, a_target_names_its_key, denotations_are_one, entities_have_one_name,
    every_text_is_decided, keys_move, places_rise, renaming_keeps_the_meaning,
};
pub use renaming::{EntityKey, Target};
pub use text::SmallText;
