//! The nine acts, what they answer, and the history of both.
use crate::refusals::Refusal;
use journal::Judgement;
use statement::Operation;

/// The most servers of an ensemble, numbered from 1.
pub const SERVERS: usize = 8;

/// Clients are numbered from 0 to this.
pub const LAST_CLIENT: u8 = 15;

/// Which transaction an act is about: a client's job at a server.
#[derive(Clone, Copy)]
pub struct TransactionId {
    pub server: u8,
    pub client: u8,
    pub job: u32,
}

/// An act on an ensemble, with raw numbers.
#[derive(Clone, Copy)]
pub enum Act {
    Begin(TransactionId),
    /// A statement, by the number of its cell and its operation.
    Run(TransactionId, u64, Operation),
    Commit(TransactionId),
    Abort(TransactionId),
    Suspect(u8),
    Order,
    Deliver(u8),
    Stop(u8),
    Start(u8),
}

/// What an act answered.
#[derive(Clone, Copy)]
pub enum Answer {
    /// Obeyed, with nothing to tell.
    Done,
    /// The result of a run.
    Result(u64),
    /// The position of the message that was ordered.
    Ordered(u64),
    /// The position of the message that was delivered, and its judgement.
    Delivered(u64, Judgement),
    /// Turned down.
    Refused(Refusal),
}

/// An act with its answer.
#[derive(Clone, Copy)]
pub struct Entry {
    pub act: Act,
    pub answer: Answer,
}
