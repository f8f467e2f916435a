//! A machine that reads a translation unit by the guarded table, with one stack of symbols.
#![tactic(auto)]

mod guards;
mod laws;
mod machine;
mod stack;
mod state;

pub use guards::{Choice, choose_at, meets_at};
pub use laws::{
    calls_are_a_trees, done_stays, events_are_a_trees, no_tree_goes_on, syntax_ends_all_trees,
    trees_are_one, trees_go_over,
};
pub use machine::Machine;
pub use state::{Event, MachineFault};

#[cfg(test)]
mod tests;
