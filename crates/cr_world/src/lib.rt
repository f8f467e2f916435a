//! The outside of the program as two traits, a tree of files and a sink of bytes. Each tells, where it
//! can, what it holds, and always how many of its calls failed and what it was asked for. Two stand in memory, for tests, and two
//! over the system's files and streams.
#![tactic(auto)]

mod calls;
mod dir_tree;
mod disk;
mod history;
mod mem_sink;
mod mem_tree;
mod outside;
mod std_sink;
mod system_disk;
#[cfg(test)]
mod tests;

pub use dir_tree::DirTree;
pub use disk::{Disk, OpenFault};
pub use history::History;
pub use mem_sink::MemSink;
pub use mem_tree::MemTree;
pub use outside::{DoneEnd, ReadEnd, Sink, Tree};
pub use std_sink::StdSink;
pub use system_disk::SystemDisk;
