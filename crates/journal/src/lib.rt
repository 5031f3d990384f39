//! Judging the ordered log (docs/judging.md).
#![tactic(auto)]

pub mod judging;
pub mod theorems;
pub mod verdicts;
pub mod wording;

pub use judging::{judge, primary};
pub use theorems::{cells_are_one_run, earlier_is_told};
pub use verdicts::Judgement;
