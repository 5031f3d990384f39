//! The messages that a server offers to the broadcast, and what it does when one is offered.
ghost use Rattle.std.specs.Prelude.{◌≡◌};
ghost use Rattle.replica.specs.Meanings.{Meaning};
ghost use Rattle.message.specs.Messages.{transaction, epoch_change, tx_of};
ghost use Rattle.pronto.specs.Refusing.{first, open_table, running_table, commit_after};
ghost use Rattle.pronto.specs.Acts.{message_to_commit};
ghost use Rattle.server.specs.Shown.{shown};
ghost use Rattle.server.specs.Looking.{Looks};

use super::Server;
use crate::states::Arrival;
use message::{EpochChange, Transaction};
use pronto::{ServerFault, TransactionId};

impl Server {
    /// The message that a commit of a client's job offers, at its server. It changes nothing yet.
    ///
    /// Refused where the server is stopped, the client does not exist, the job is not open, or it is committing.
    pub fn commit_message(&self, id: TransactionId) -> Result<Transaction, ServerFault>
        ensures { (m : Meaning) → Looks result (first (open_table (shown self.now m) id.client id.job)) (λ t. transaction (tx_of t) ≡ message_to_commit id.server (shown self.now m) id.client id.job) }
    {
        let transaction = self.look_open(id, Arrival::Commit)?;
        Ok(Transaction {
            sender: id.server,
            epoch: self.epoch,
            client: transaction.row.client,
            job: transaction.row.job,
            notes: transaction.row.notes,
        })
    }

    /// The client's job is committing from now on: its message is offered. Nothing changes where it is not open.
    /// The server that the id names is not looked at.
    pub fn send_off(&mut self, id: TransactionId)
        ensures { (m : Meaning) → shown self.new m ≡ commit_after (shown self.old m) id.client id.job }
    {
        if let Ok(transaction) = self.reach(id, Arrival::Commit) {
            self.settle(transaction);
        }
    }

    /// The message that a suspect offers, at the server of this number.
    ///
    /// Refused where the server is stopped.
    pub fn epoch_message(&self, number: u8) -> Result<EpochChange, ServerFault>
        ensures { (m : Meaning) → Looks result (first (running_table (shown self.now m))) (λ x. epoch_change x.sender x.epoch ≡ epoch_change number (shown self.now m).epoch) }
    {
        self.look_running()?;
        Ok(EpochChange {
            sender: number,
            epoch: self.epoch,
        })
    }
}
