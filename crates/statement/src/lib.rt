//! A statement on one cell, and what it does to the cell's value (docs/statements.md).
#![tactic(auto)]

pub mod applying;
pub mod checked;
pub mod operation;
pub mod wording;

pub use applying::Effect;
pub use checked::{Missing, Statement};
pub use operation::Operation;
