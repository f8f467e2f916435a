//! The declarations of two names in a translation unit by scope and name space, with the keys of what they declare.
#![tactic(auto)]

mod adding;
mod build;
mod firsts;
mod groups;
mod innermost;
mod names;
mod outward;

pub use adding::add_fact;
pub use build::{Linked, groups_of, linked_in};
pub use firsts::{first_at, note_first};
pub use groups::{Group, Sort, group_at};
pub use innermost::{nearest, outermost, shows_from};
pub use names::{Names, is_one_of, is_same};
pub use outward::{add_deeper, add_here, depth};
