//! The open transactions of a server.
ghost use Rattle.std.specs.Prelude.{◌≡◌};
ghost use Rattle.pronto.specs.Servers.{new_work};
ghost use Rattle.server.specs.Shown.{work_of, seen_row, row_after};

use crate::slots::Slot;
use crate::states::{Outcome, State};
use message::Notes;

/// An open transaction: a client's job, with what it ran.
#[derive(Clone, Copy)]
pub struct Row {
    pub client: u8,
    pub job: u32,
    pub notes: Notes,
    pub state: State,
}

/// A transaction that an act may go on with: its slot, and what becomes of it.
#[derive(Clone, Copy)]
pub struct Open {
    pub slot: Slot,
    pub row: Row,
    pub outcome: Outcome,
}

impl Row {
    /// An executing transaction of a client's job, which ran nothing yet.
    pub fn new(client: u8, job: u32) -> Row
        ensures { work_of result ≡ new_work client job }
    {
        Row {
            client,
            job,
            notes: Notes::new(),
            state: State::Executing,
        }
    }
}

impl Open {
    /// What the slot holds after the outcome.
    pub fn left(self) -> Option<Row>
        ensures { seen_row result ≡ row_after self.outcome self.row }
    {
        match self.outcome {
            Outcome::Stays => Some(self.row),
            Outcome::Commits => Some(Row {
                state: State::Committing,
                ..self.row
            }),
            Outcome::Ends => None,
        }
    }
}
