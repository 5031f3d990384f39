//! Running a whole run file on an ensemble (docs/run-file.md). The law of docs/law.md stands on this call.
#![tactic(auto)]

pub mod running;

pub use running::ShortOutput;
