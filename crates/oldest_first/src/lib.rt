//! An ordered broadcast that orders the oldest offer first.
#![tactic(auto)]

pub mod rows;

pub use rows::OldestFirst;

#[cfg(test)]
mod tests;
