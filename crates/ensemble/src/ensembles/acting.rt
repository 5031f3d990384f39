//! The acts that concern one server: begin, run, abort, deliver, stop and start.
ghost use Rattle.pronto.specs.Acts.{Begin, Run, Abort, Deliver, Stop, Start};
ghost use Rattle.ensemble.specs.Whole.{state};

use super::Ensemble;
use super::finding::at_server;
use bank::{DatabaseBank, ReplicaBank};
use broadcast::Broadcast;
use journal::Judgement;
use pronto::{Refusal, TransactionId};
use server::{abort, begin, deliver, run, start, stop};
use statement::Operation;

// kept: each act finds its server, calls and passes the outcome up. A function over a closure would have to state each act's clause again.
impl<B: Broadcast, K: DatabaseBank> Ensemble<B, K> {
    /// Opens a transaction of a client's job at a server, in a free slot.
    ///
    /// Refused by 1, 2, 4, 6, 7, 8 and 9.
    pub fn begin(&mut self, id: TransactionId) -> Result<(), Refusal>
        ensures { Begin id.client id.job (state B.Broadcast K.ReplicaBank K.DatabaseBank.own self.old) id.server result (state B.Broadcast K.ReplicaBank K.DatabaseBank.own self.new) }
    {
        let place = self.place(id.server)?;
        let outcome = begin(
            &mut self.servers[place],
            &mut self.bank,
            place as u64,
            self.count,
            id,
        );
        at_server(id.server, outcome)
    }

    /// Runs an operation on a cell in a transaction, notes it, and answers its result.
    ///
    /// Refused by 1, 2, 4, 5, 10, 11, 12 and 13.
    pub fn run(
        &mut self,
        id: TransactionId,
        cell: u64,
        operation: Operation,
    ) -> Result<u64, Refusal>
        ensures { Run id.client id.job cell operation (state B.Broadcast K.ReplicaBank K.DatabaseBank.own self.old) id.server result (state B.Broadcast K.ReplicaBank K.DatabaseBank.own self.new) }
    {
        let place = self.place(id.server)?;
        let outcome = run(
            &mut self.servers[place],
            &mut self.bank,
            place as u64,
            id,
            cell,
            operation,
        );
        at_server(id.server, outcome)
    }

    /// Undoes a transaction and removes it.
    ///
    /// Refused by 1, 2, 4, 10 and 11.
    pub fn abort(&mut self, id: TransactionId) -> Result<(), Refusal>
        ensures { Abort id.client id.job (state B.Broadcast K.ReplicaBank K.DatabaseBank.own self.old) id.server result (state B.Broadcast K.ReplicaBank K.DatabaseBank.own self.new) }
    {
        let place = self.place(id.server)?;
        let outcome = abort(&mut self.servers[place], &mut self.bank, place as u64, id);
        at_server(id.server, outcome)
    }

    /// Handles the next message of the log at a server, and answers its position and judgement.
    ///
    /// Refused by 1, 2 and 16.
    pub fn deliver(&mut self, server: u8) -> Result<(u64, Judgement), Refusal>
        ensures { Deliver (state B.Broadcast K.ReplicaBank K.DatabaseBank.own self.old) server result (state B.Broadcast K.ReplicaBank K.DatabaseBank.own self.new) }
    {
        let place = self.place(server)?;
        let outcome = deliver(
            &mut self.servers[place],
            &mut self.bank,
            &self.broadcast,
            place as u64,
            server,
        );
        at_server(server, outcome)
    }

    /// Stops a server: it forgets slots, transactions, epoch and delivered count, and keeps cells and mark.
    ///
    /// Refused by 1 and 2.
    pub fn stop(&mut self, server: u8) -> Result<(), Refusal>
        ensures { Stop (state B.Broadcast K.ReplicaBank K.DatabaseBank.own self.old) server result (state B.Broadcast K.ReplicaBank K.DatabaseBank.own self.new) }
    {
        let place = self.place(server)?;
        let outcome = stop(&mut self.servers[place], &mut self.bank, place as u64);
        at_server(server, outcome)
    }

    /// Starts a server, with a bar at the count of ordered messages.
    ///
    /// Refused by 1 and 3.
    pub fn start(&mut self, server: u8) -> Result<(), Refusal>
        ensures { Start (state B.Broadcast K.ReplicaBank K.DatabaseBank.own self.old) server result (state B.Broadcast K.ReplicaBank K.DatabaseBank.own self.new) }
    {
        let place = self.place(server)?;
        let bar = self.broadcast.ordered_count();
        let outcome = start(&mut self.servers[place], bar);
        at_server(server, outcome)
    }
}
