//! The table of open transactions: looking a row up, and writing one.
ghost use Rattle.std.specs.Prelude.{◌≡◌};
ghost use Rattle.replica.specs.Meanings.{Meaning};
ghost use Rattle.pronto.specs.Servers.{with_row};
ghost use Rattle.pronto.specs.Refusing.{seek};
ghost use Rattle.server.specs.Shown.{rows_of, seen_row, row_after, shown};
ghost use Rattle.server.specs.Looking.{found_of, Free};

use super::Server;
use crate::rows::{Open, Row};
use crate::slots::Slot;

impl Server {
    /// A slot that has no transaction.
    pub(crate) fn free_slot(&self) -> Option<Slot>
        ensures { Free (rows_of self.now.rows) result }
    {
        let index = self.rows.iter().position(Option::is_none)?;
        Some(Slot { index })
    }

    // kept: a message and a row hold client and job apart, as the definitions do.
    /// The transaction of a client's job, with its slot.
    pub(crate) fn find(&self, client: u8, job: u32) -> Option<(Slot, Row)>
        ensures { found_of result ≡ seek (rows_of self.now.rows) client job 8 }
    {
        let named = |row: &Row| row.client == client && row.job == job;
        let index = self
            .rows
            .iter()
            .rposition(|entry| entry.as_ref().is_some_and(named))?;
        let row = self.rows[index]?;
        Some((Slot { index }, row))
    }

    /// Has this row in a slot.
    pub(crate) fn put(&mut self, slot: Slot, row: Option<Row>)
        ensures { (m : Meaning) → shown self.new m ≡ with_row (shown self.old m) slot.index (seen_row row) }
    {
        self.rows[slot.index] = row;
    }

    /// Has in a transaction's slot what becomes of it.
    pub(crate) fn settle(&mut self, transaction: Open)
        ensures { (m : Meaning) → shown self.new m ≡ with_row (shown self.old m) transaction.slot.index (row_after transaction.outcome transaction.row) }
    {
        self.put(transaction.slot, transaction.left());
    }
}
