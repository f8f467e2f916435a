//! A compilation database, as Clang writes it, read into the translation units that it lists.
#![tactic(auto)]

mod command;
mod database;
mod entry;
mod settings;
#[cfg(test)]
mod tests;
mod unit;

pub use database::read_db;
pub use entry::{DbFault, Entry, FieldName};
