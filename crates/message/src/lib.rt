//! The messages that an ordered broadcast carries (docs/broadcast.md).
#![tactic(auto)]

pub mod messages;
pub mod notes;
pub mod wording;

pub use messages::{EpochChange, Message, Transaction};
pub use notes::{Notes, STATEMENTS};
