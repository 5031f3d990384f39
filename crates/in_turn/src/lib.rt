//! An ordered broadcast that takes its senders' lines in turn.
#![tactic(auto)]

pub mod lines;

pub use lines::InTurn;

#[cfg(test)]
mod tests;
