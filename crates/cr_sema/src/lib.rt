//! The binding of a translation unit, event by event: what its identifiers mean, or its first fault (C11 6.2, 6.5, 6.7,
//! 6.8).
#![tactic(auto)]

mod fault;
mod sema;
mod walk;

pub use fault::SemaFault;
pub use sema::Sema;
