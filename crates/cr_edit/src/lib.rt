//! The edits of a rename: the new bytes of its files, its report, and how the files are replaced.
#![tactic(auto)]

mod edits;
mod printing;
mod write;

pub use edits::{FileEdit, apply};
pub use printing::{Head, report};
pub use write::{Write, replace_all, writes_of};
