//! The databases of an ensemble, addressed by place (docs/databases.md).
#![tactic(auto)]

pub mod banks;

pub use banks::{DatabaseBank, ReplicaBank};
