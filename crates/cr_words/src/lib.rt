//! The words of the command line, read into what they ask for.
#![tactic(auto)]

mod given;
mod kind;
mod number;
mod qualified_name;
mod request;
mod text;

pub use qualified_name::QualifiedName;
pub use request::{Aim, Pooling, Rename, Request, Task, WordsFault, read_words};

#[cfg(test)]
mod tests;
