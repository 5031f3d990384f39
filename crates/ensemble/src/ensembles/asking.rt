//! Questions. They change nothing, and a stopped server is told too.
ghost use Rattle.std.specs.Prelude.{◌≡◌, length};
ghost use Rattle.ensemble.specs.Whole.{state};
ghost use Rattle.ensemble.specs.Asking.{TellsServer, TellsCell, TellsTransaction, TellsMessage};

use super::Ensemble;
use bank::{DatabaseBank, ReplicaBank};
use broadcast::Broadcast;
use message::Message;
use pronto::{LAST_CLIENT, Refusal, ServerFault, TransactionId};
use server::State;

impl<B: Broadcast, K: DatabaseBank> Ensemble<B, K> {
    /// Whether a server runs.
    ///
    /// Refused by 1.
    pub fn running(&self, server: u8) -> Result<bool, Refusal>
        ensures { TellsServer (state B.Broadcast K.ReplicaBank K.DatabaseBank.own self.now) server (λ v. v.running) result }
    {
        self.asked(server).map(|asked| asked.running())
    }

    /// A server's epoch.
    ///
    /// Refused by 1.
    pub fn epoch(&self, server: u8) -> Result<u64, Refusal>
        ensures { TellsServer (state B.Broadcast K.ReplicaBank K.DatabaseBank.own self.now) server (λ v. v.epoch) result }
    {
        self.asked(server).map(|asked| asked.epoch())
    }

    /// How many messages are delivered at a server.
    ///
    /// Refused by 1.
    pub fn delivered(&self, server: u8) -> Result<u64, Refusal>
        ensures { TellsServer (state B.Broadcast K.ReplicaBank K.DatabaseBank.own self.now) server (λ v. v.delivered) result }
    {
        self.asked(server).map(|asked| asked.delivered())
    }

    /// The mark of a server's database.
    ///
    /// Refused by 1.
    pub fn mark(&self, server: u8) -> Result<u64, Refusal>
        ensures { TellsServer (state B.Broadcast K.ReplicaBank K.DatabaseBank.own self.now) server (λ v. v.db.mark) result }
    {
        let place = self.place(server)?;
        Ok(self.bank.mark(place as u64))
    }

    /// A committed cell of a server's database.
    ///
    /// Refused by 1 and 5.
    pub fn cell(&self, server: u8, cell: u64) -> Result<u64, Refusal>
        ensures { TellsCell (state B.Broadcast K.ReplicaBank K.DatabaseBank.own self.now) server cell result }
    {
        let place = self.place(server)?;
        // kept: `ok` and `ok_or`; under `map_err` with a closure the goal of this function stayed open.
        self.bank
            .cell(place as u64, cell)
            .ok()
            .ok_or(Refusal::Server(server, ServerFault::NoCell))
    }

    /// How far a transaction is.
    ///
    /// Refused by 1, 4 and 10.
    pub fn transaction_state(&self, id: TransactionId) -> Result<State, Refusal>
        ensures { TellsTransaction (state B.Broadcast K.ReplicaBank K.DatabaseBank.own self.now) id.server id.client id.job result }
    {
        let asked = self.asked(id.server)?;
        if id.client > LAST_CLIENT {
            return Err(Refusal::Server(id.server, ServerFault::NoClient));
        }
        asked
            .transaction_state(id)
            .ok_or(Refusal::Server(id.server, ServerFault::NoTransaction))
    }

    /// How many messages are ordered.
    pub fn ordered(&self) -> u64
        ensures { result ≡ length (state B.Broadcast K.ReplicaBank K.DatabaseBank.own self.now).log }
    {
        self.broadcast.ordered_count()
    }

    /// How many messages wait.
    pub fn waiting(&self) -> u64
        ensures { result ≡ length (state B.Broadcast K.ReplicaBank K.DatabaseBank.own self.now).waiting }
    {
        self.broadcast.waiting_count()
    }

    /// How many messages were sent.
    pub fn sent(&self) -> u64
        ensures { result ≡ (state B.Broadcast K.ReplicaBank K.DatabaseBank.own self.now).sent }
    {
        self.sent
    }

    /// The message at a position of the log.
    ///
    /// Refused by 17.
    pub fn message(&self, position: u64) -> Result<&Message, Refusal>
        ensures { TellsMessage (state B.Broadcast K.ReplicaBank K.DatabaseBank.own self.now) position result }
    {
        Ok(self.broadcast.message_at(position)?)
    }
}
