//! Run files: who the clients are, then the steps (docs/run-file.md).
#![tactic(auto)]

pub mod faults;
pub mod files;
pub mod meaning;
pub mod reader;
pub mod sections;
pub mod steps;
pub mod theorems;

pub use faults::{FileFault, Unread, Why};
pub use files::RunFile;
pub use files::making::{NAMES, STEPS};
pub use reader::BYTES;
pub use sections::Section;
pub use steps::{Line, Step};
pub use theorems::one_answer;
