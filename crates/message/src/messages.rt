//! The two kinds of message.
use crate::notes::Notes;

pub mod asking;

/// A server's wish to end an epoch: it carries the epoch in which the server suspects the primary.
#[derive(Clone, Copy)]
pub struct EpochChange {
    pub sender: u8,
    pub epoch: u64,
}

/// A transaction that its server wants committed, with the epoch in which it ran.
#[derive(Clone, Copy)]
pub struct Transaction {
    pub sender: u8,
    pub epoch: u64,
    pub client: u8,
    pub job: u32,
    pub notes: Notes,
}

/// What the broadcast carries to every server.
#[derive(Clone, Copy)]
pub enum Message {
    Epoch(EpochChange),
    Transaction(Transaction),
}
