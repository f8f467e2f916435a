//! What the words and the files decide: the name that is meant, whether it may be renamed, and the edits.
#![tactic(auto)]

mod editing;
mod judging;
mod meaning;
mod plan;

pub use editing::edit_files;
pub use judging::judge;
pub use meaning::{Meant, may_rename, what_is_meant};
pub use plan::{Plan, make_plan};
