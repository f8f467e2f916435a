//! From preprocessing tokens to tokens.
#![tactic(auto)]

mod number;
mod tokens;
mod words;

pub use tokens::{Phase7Fault, tokens7};

#[cfg(test)]
mod tests;
