//! The binding of a translation unit while its nodes are opened and closed, and its tokens, actions and asks come one by
//! one (C11 6.2, 6.5, 6.7, 6.8).
#![tactic(auto)]

mod binder;
mod frames;

pub use binder::Binder;
