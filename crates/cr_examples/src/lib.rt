//! Worked examples that cross crates.
#![tactic(auto)]

#[cfg(test)]
mod expander;
#[cfg(test)]
mod tests;
