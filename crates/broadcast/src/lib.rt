//! An ordered broadcast of messages, of any make (docs/broadcast.md).
#![tactic(auto)]

pub mod broadcasts;
pub mod faults;
pub mod wording;

pub use broadcasts::Broadcast;
pub use faults::{Full, NotOrdered, NothingWaits};
