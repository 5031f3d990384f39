//! A database that writes in place and keeps former values for undo.
#![tactic(auto)]

mod cellwise;
mod former;
mod locking;
mod read_set;
pub mod replicating;
pub mod state;
pub mod transacting;

pub use state::InPlace;

#[cfg(test)]
mod tests;
