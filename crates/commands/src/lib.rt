//! The step lines of a run file, as commands whose names are still views into the file (docs/run-file.md).
#![tactic(auto)]

pub mod openings;
pub mod parsing;
pub mod shapes;

pub use openings::{JobVerb, MemberVerb, Opening, ReadVerb, ServerVerb, StoreVerb, opening_of};
pub use parsing::parse;
pub use shapes::{Command, Target};
