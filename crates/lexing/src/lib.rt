//! Lines, words, numbers and names of a run file (docs/run-file.md). Every part that is found stays a view into the file.
#![tactic(auto)]

pub mod cutting;
pub mod names;
pub mod numbers;
pub mod tokens;

pub use cutting::{cut, same};
pub use names::is_name;
pub use numbers::number;
pub use tokens::{Lexer, Token};
