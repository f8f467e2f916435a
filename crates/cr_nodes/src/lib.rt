//! The open nodes of a translation unit, found from the events of its tree.
#![tactic(auto)]

mod laws;
mod nodes;
mod pending;
mod rows;

pub use laws::{
    asks_come_before_nodes, calls_are_a_run, runs_are_of_trees, steps_are_a_trees, the_machine_fits,
};
pub use nodes::{Before, Nodes, NodesFault};

#[cfg(test)]
mod tests;
