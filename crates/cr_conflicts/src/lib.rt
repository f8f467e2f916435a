//! What can't be renamed from one name to another, since it would change what something means (C11 6.2.1 to 6.2.3, 6.7).
#![tactic(auto)]

mod asks;
mod conflicts;
mod leasts;
mod members;
mod pairs;
mod uses;

pub use conflicts::add_conflicts;
pub use members::{MemberRow, member_at, member_key, tags_of};
pub use pairs::row_at;
pub use uses::{name_in, place_in};
