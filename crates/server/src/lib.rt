//! One server with its database: what each act does there (docs/acts.md).
#![tactic(auto)]

// kept: the functions in begins, delivers, handles, runs and stops, but `start`, take a server, a bank and a place. A struct that lends all
// three names their last values by position in its contracts, as `self.exit.1.0.now`, and the public functions would only wrap its methods.
// A number that goes with them is the server's in messages; the place is where its database stands in the bank.
pub mod begins;
pub mod counts;
pub mod delivers;
mod handles;
mod rows;
pub mod runs;
pub mod servers;
mod slots;
pub mod states;
pub mod stops;

pub use begins::begin;
pub use counts::ServerCount;
pub use delivers::deliver;
pub use runs::{abort, run};
pub use servers::Server;
pub use states::State;
pub use stops::{start, stop};
