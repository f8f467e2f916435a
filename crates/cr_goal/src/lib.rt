//! What a run is to do: the goal of its words, the entries of its database, and the refusals that these decide.
#![tactic(auto)]

mod entries;
mod goal;
mod number;
mod refusal;
mod units;

pub use entries::read_entries;
pub use goal::{Goal, Listing, Sought, read_goal};
pub use number::push_number;
pub use refusal::{Refusal, Refused, Status, refusal_of};
pub use units::{Entries, Skip};
