//! Worked examples of units of C11, from their text to their facts.
#![tactic(auto)]

#[cfg(test)]
mod tests;
