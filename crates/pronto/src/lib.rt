//! The acts on an ensemble, their refusals, and the law that any list of them keeps (docs/acts.md, docs/refusals.md, docs/law.md).
#![tactic(auto)]

pub mod acts;
pub mod faults;
pub mod law;
pub mod refusals;
pub mod wording;

pub use acts::{Act, Answer, Entry, LAST_CLIENT, SERVERS, TransactionId};
pub use faults::ServerFault;
pub use law::{an_afternoon, law_holds};
pub use refusals::Refusal;
