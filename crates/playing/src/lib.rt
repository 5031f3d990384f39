//! Playing lists of acts on an ensemble. The law of docs/law.md stands on these calls.
#![tactic(auto)]

pub mod performing;
pub mod plays;

pub use performing::perform;
pub use plays::{NoRoom, Unplayed, play, play_new};
