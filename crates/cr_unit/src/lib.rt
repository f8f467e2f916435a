//! A translation unit from its first file to its tokens, over the files that a snapshot knows.
#![tactic(auto)]

mod converting;
mod preprocessing;

pub use converting::{Converted, UnitTokens, convert, place_behind};
pub use preprocessing::{Preprocessed, Whole, preprocess};
