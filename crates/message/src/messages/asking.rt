//! What both kinds of message have.
ghost use Rattle.std.specs.Prelude.{◌≡◌};
ghost use Rattle.message.specs.Messages.{msg_of, msg_sender, msg_epoch};

use super::Message;

impl Message {
    /// The server that sent it.
    pub fn sender(&self) -> u8
        ensures { result ≡ msg_sender (msg_of self.now) }
    {
        match self {
            Message::Epoch(change) => change.sender,
            Message::Transaction(transaction) => transaction.sender,
        }
    }

    /// The epoch that it carries.
    pub fn epoch(&self) -> u64
        ensures { result ≡ msg_epoch (msg_of self.now) }
    {
        match self {
            Message::Epoch(change) => change.epoch,
            Message::Transaction(transaction) => transaction.epoch,
        }
    }
}
