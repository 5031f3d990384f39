//! A database that keeps what a transaction writes in its slot until seal, and locks eight cells at a time (docs/databases.md).
#![tactic(auto)]

mod locking;
pub mod replicating;
mod slots;
pub mod state;
#[cfg(test)]
mod tests;
pub mod transacting;
mod transaction;
mod units;

pub use state::Deferred;
