//! Messages as text for people.
use crate::messages::{EpochChange, Message, Transaction};
use crate::notes::Notes;
use std::fmt;

// kept: no text in the contract of these two: it is printed in a loop, and that goal stays open today.
/// Each statement with its result after a space, as ` add 5 3 = 3; get 5 = 3;`.
impl fmt::Display for Notes {
    fn fmt<W: fmt::Write>(&self, f: &mut fmt::Formatter<W>) -> fmt::Result {
        for (statement, result) in self.statements().iter().zip(self.results().iter()) {
            write!(f, " {statement} = {result};")?;
        }
        Ok(())
    }
}

/// `server 1, epoch 1: client 0, job 7: add 5 3 = 3;`, or `server 2, epoch 1: next epoch`.
impl fmt::Display for Message {
    fn fmt<W: fmt::Write>(&self, f: &mut fmt::Formatter<W>) -> fmt::Result {
        match self {
            Message::Epoch(change) => {
                let EpochChange { sender, epoch } = change;
                write!(f, "server {sender}, epoch {epoch}: next epoch")
            }
            Message::Transaction(transaction) => {
                let Transaction {
                    sender,
                    epoch,
                    client,
                    job,
                    notes,
                } = transaction;
                write!(
                    f,
                    "server {sender}, epoch {epoch}: client {client}, job {job}:{notes}"
                )
            }
        }
    }
}
