//! What a replica and a database mean, whatever their make (docs/databases.md).
#![tactic(auto)]

pub mod databases;
pub mod faults;
pub mod replaying;
pub mod replicas;
pub mod slots;
pub mod transacting;

pub use databases::Database;
pub use faults::Fault;
pub use replaying::{CELLS, SLOTS, replay};
pub use replicas::Replica;
pub use transacting::transact;
