//! The acts that concern the broadcast: commit, suspect and order.
ghost use Rattle.std.specs.Prelude.{◌≡◌};
ghost use Rattle.message.specs.Messages.{msg_of};
ghost use Rattle.pronto.specs.Acts.{Commit, Suspect, Order};
ghost use Rattle.ensemble.specs.Whole.{state};
ghost use Rattle.ensemble.specs.Sending.{Sends};

use super::Ensemble;
use super::finding::at_server;
use bank::{DatabaseBank, ReplicaBank};
use broadcast::Broadcast;
use message::Message;
use pronto::{Refusal, TransactionId};

/// Offers a message of a server, and counts it as sent.
///
/// Refused where the broadcast is full.
fn send<B: Broadcast>(
    broadcast: &mut B,
    sent: &mut u64,
    server: u8,
    message: Message,
) -> Result<(), Refusal>
    ensures log { B.Broadcast.log broadcast.new ≡ B.Broadcast.log broadcast.old }
    ensures capacity { B.Broadcast.capacity broadcast.new ≡ B.Broadcast.capacity broadcast.old }
    ensures sends { Sends server (msg_of message) (B.Broadcast.capacity broadcast.old) (B.Broadcast.log broadcast.old) (B.Broadcast.waiting broadcast.old) (B.Broadcast.waiting broadcast.new) sent.old sent.new result }
{
    broadcast.offer(message).map_err(|_| Refusal::Full(server))?;
    *sent = sent.wrapping_add(1);
    Ok(())
}

impl<B: Broadcast, K: DatabaseBank> Ensemble<B, K> {
    /// Offers a transaction's message to the broadcast; the transaction is committing.
    ///
    /// Refused by 1, 2, 4, 10, 11 and 14.
    pub fn commit(&mut self, id: TransactionId) -> Result<(), Refusal>
        ensures { Commit id.client id.job (state B.Broadcast K.ReplicaBank K.DatabaseBank.own self.old) id.server result (state B.Broadcast K.ReplicaBank K.DatabaseBank.own self.new) }
    {
        let place = self.place(id.server)?;
        let message = at_server(id.server, self.servers[place].commit_message(id))?;
        send(
            &mut self.broadcast,
            &mut self.sent,
            id.server,
            Message::Transaction(message),
        )?;
        self.servers[place].send_off(id);
        Ok(())
    }

    /// Offers an epoch message with the server's epoch.
    ///
    /// Refused by 1, 2 and 14.
    pub fn suspect(&mut self, server: u8) -> Result<(), Refusal>
        ensures { Suspect (state B.Broadcast K.ReplicaBank K.DatabaseBank.own self.old) server result (state B.Broadcast K.ReplicaBank K.DatabaseBank.own self.new) }
    {
        let asked = self.asked(server)?;
        let message = at_server(server, asked.epoch_message(server))?;
        send(
            &mut self.broadcast,
            &mut self.sent,
            server,
            Message::Epoch(message),
        )
    }

    /// Orders one waiting message and answers its position.
    ///
    /// Refused by 15.
    pub fn order(&mut self) -> Result<u64, Refusal>
        ensures { Order (state B.Broadcast K.ReplicaBank K.DatabaseBank.own self.old) result (state B.Broadcast K.ReplicaBank K.DatabaseBank.own self.new) }
    {
        Ok(self.broadcast.order()?)
    }
}
