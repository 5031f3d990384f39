//! The ensemble itself.
use pronto::SERVERS;
use server::{Server, ServerCount};

pub mod acting;
pub mod asking;
pub mod finding;
pub mod making;
pub mod sending;

// kept: clauses say `state ..` and there is no model: it would have the bounds of its struct, which has none, and could not name log and databases.
/// Up to eight servers, each with a database of the bank, and one ordered broadcast, held by value. No act allocates.
#[derive(Drop)]
pub struct Ensemble<B, K> {
    broadcast: B,
    bank: K,
    // By place. Those past the count are never used.
    // kept: an array with a count beside, since memory is fixed and making an ensemble allocates nothing.
    servers: [Server; SERVERS],
    count: ServerCount,
    sent: u64,
}
