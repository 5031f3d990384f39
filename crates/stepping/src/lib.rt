//! Taking the steps of a run file on an ensemble, and writing what each answers (docs/run-file.md).
#![tactic(auto)]

mod answers;
pub mod lines;
mod owners;
mod putting;
pub mod taking;

pub use lines::{LINE_BYTES, ShortLine, take_step, write_fault};
pub use taking::take;
