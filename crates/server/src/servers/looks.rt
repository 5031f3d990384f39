//! What turns an act down before the database is asked: for each act its table's tests, in the table's order.
ghost use Rattle.std.specs.Prelude.{◌≡◌, true};
ghost use Rattle.replica.specs.Meanings.{Meaning};
ghost use Rattle.pronto.specs.Refusing.{first, begin_table, run_table, open_table, running_table, start_table, find, seek};
ghost use Rattle.pronto.specs.Delivering.{deliver_table, own_at};
ghost use Rattle.server.specs.Shown.{rows_of, shown};
ghost use Rattle.server.specs.Outcomes.{asks};
ghost use Rattle.server.specs.Looking.{Looks, RunsOrStopped, Admits, Reaches, slot_of, FreeIn, Found, Runnable, Next, Nothing};

use super::Server;
use crate::counts::ServerCount;
use crate::rows::Open;
use crate::slots::Slot;
use crate::states::{Arrival, Outcome, arrive};
use broadcast::Broadcast;
use journal::{Judgement, judge, primary};
use message::{Message, STATEMENTS, Transaction};
use pronto::{LAST_CLIENT, ServerFault, TransactionId};
use statement::{Operation, Statement};

impl Server {
    /// What every act of a client asks first: the server runs, and the client exists.
    fn admit(&self, client: u8) -> Result<(), ServerFault>
        ensures { Admits self.now client result }
    {
        self.look_running()?;
        if client > LAST_CLIENT {
            return Err(ServerFault::NoClient);
        }
        Ok(())
    }

    /// The transaction of a client's job, and what becomes of it when this reaches it.
    pub(crate) fn reach(&self, id: TransactionId, arrival: Arrival) -> Result<Open, ServerFault>
        ensures { Reaches arrival (seek (rows_of self.now.rows) id.client id.job 8) result }
    {
        // kept: by a rule of the project (docs/DECISIONS.md) a job that is looked up is taken apart by let else, here and in look_begin.
        let Some((slot, row)) = self.find(id.client, id.job) else {
            return Err(ServerFault::NoTransaction);
        };
        let outcome = arrive(row.state, arrival)?;
        Ok(Open { slot, row, outcome })
    }

    /// The slot that a begin takes.
    pub(crate) fn look_begin(
        &self,
        count: ServerCount,
        id: TransactionId,
    ) -> Result<Slot, ServerFault>
        ensures { (m : Meaning) → Looks result (first (begin_table count.count id.server (shown self.now m) id.client id.job)) (FreeIn (shown self.now m)) }
    {
        self.admit(id.client)?;
        if primary(u64::from(count.get()), self.epoch) != Some(u64::from(id.server)) {
            return Err(ServerFault::NotPrimary);
        }
        if self.bar.is_some() {
            return Err(ServerFault::Barred);
        }
        let None = self.find(id.client, id.job) else {
            return Err(ServerFault::AlreadyOpen);
        };
        self.free_slot().ok_or(ServerFault::Crowded)
    }

    /// The statement that a run runs, and the transaction that runs it.
    pub(crate) fn look_run(
        &self,
        id: TransactionId,
        cell: u64,
        operation: Operation,
    ) -> Result<(Statement, Open), ServerFault>
        ensures { (m : Meaning) → Looks result (first (run_table (shown self.now m) id.client id.job cell operation)) (Runnable cell operation (find (shown self.now m) id.client id.job)) }
    {
        self.admit(id.client)?;
        let statement = Statement::new(cell, operation)?;
        let transaction = self.reach(id, Arrival::Run)?;
        if transaction.row.notes.len() >= STATEMENTS {
            return Err(ServerFault::Long);
        }
        Ok((statement, transaction))
    }

    /// The transaction that is committed or aborted.
    pub(crate) fn look_open(&self, id: TransactionId, arrival: Arrival) -> Result<Open, ServerFault>
        requires { asks arrival ≡ true }
        ensures { (m : Meaning) → Looks result (first (open_table (shown self.now m) id.client id.job)) (Found arrival (find (shown self.now m) id.client id.job)) }
    {
        self.admit(id.client)?;
        self.reach(id, arrival)
    }

    /// The message that is delivered next, and its judgement.
    pub(crate) fn look_deliver<'b, B: Broadcast>(
        &self,
        broadcast: &'b B,
    ) -> Result<(&'b Message, Judgement), ServerFault>
        ensures { (m : Meaning) → Looks result (first (deliver_table (B.Broadcast.log broadcast.now) (shown self.now m))) (Next (B.Broadcast.log broadcast.now) (shown self.now m)) }
    {
        self.look_running()?;
        let message = broadcast.message_at(self.delivered)?;
        let judgement = judge(broadcast, self.delivered)?;
        Ok((message, judgement))
    }

    /// That the server runs: all that a suspect and a stop ask, and what the other acts but start ask first.
    pub(crate) fn look_running(&self) -> Result<(), ServerFault>
        ensures { RunsOrStopped self.now result }
    {
        if !self.running {
            return Err(ServerFault::Stopped);
        }
        Ok(())
    }

    /// That the server does not run: all that a start asks.
    pub(crate) fn look_start(&self) -> Result<(), ServerFault>
        ensures { (m : Meaning) → Looks result (first (start_table (shown self.now m))) Nothing }
    {
        if self.running {
            return Err(ServerFault::Running);
        }
        Ok(())
    }

    /// The slot of the committing transaction that a message is of, where this server, by its number, sent it in its epoch.
    pub(crate) fn own(&self, number: u8, transaction: &Transaction) -> Option<Slot>
        ensures { slot_of result ≡ own_at (rows_of self.now.rows) self.now.epoch number transaction.now.sender transaction.now.epoch transaction.now.client transaction.now.job }
    {
        if transaction.sender != number || transaction.epoch != self.epoch {
            return None;
        }
        let (slot, row) = self.find(transaction.client, transaction.job)?;
        match arrive(row.state, Arrival::Delivered).ok()? {
            Outcome::Ends => Some(slot),
            Outcome::Stays | Outcome::Commits => None,
        }
    }
}
