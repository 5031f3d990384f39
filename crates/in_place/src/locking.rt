//! Whose locks exclude others, and what a run leaves.
ghost use Rattle.std.specs.Prelude.{◌≡◌, ◌<◌, true, false};
ghost use Rattle.statement.specs.Operations.{writes_cell};
ghost use Rattle.replica.specs.Meanings.{is_open, excludes, busy};
ghost use Rattle.replica.specs.Calls.{written_into, looked_at};
ghost use Rattle.in_place.specs.State.{meaning_of, same_unit};

use crate::former::{Former, base, wrote};
use crate::state::InPlace;
use replica::SLOTS;
use statement::Statement;

impl InPlace {
    /// Whether a lock of `other` on the statement's cell excludes the one that the statement needs in `slot`.
    fn shuts_out(&self, slot: usize, statement: &Statement, other: usize) -> bool
        requires { other < 8 }
        ensures { result ≡ excludes (meaning_of self.now) slot statement.now.cell (writes_cell statement.now.operation) other }
    {
        let Some(reads) = &self.slots[other] else {
            return false;
        };
        other != slot
            && (wrote(self.formers[statement.cell() as usize], other)
                || (statement.writes() && reads.contains(statement)))
    }

    /// Whether a lock of any other slot on the statement's cell excludes the one that the statement needs in `slot`.
    pub(crate) fn is_busy(&self, slot: usize, statement: &Statement) -> bool
        ensures { result ≡ busy (meaning_of self.now) slot statement.now.cell (writes_cell statement.now.operation) }
    {
        (0..SLOTS).any(|other| self.shuts_out(slot, statement, other))
    }

    /// Writes the statement's cell, and so locks it for writing; a former value stays that of the first write.
    pub(crate) fn write(&mut self, slot: usize, statement: &Statement, value: u64)
        requires opened { is_open (meaning_of self.old) slot ≡ true }
        requires free { busy (meaning_of self.old) slot statement.now.cell true ≡ false }
        ensures { meaning_of self.new ≡ written_into same_unit (meaning_of self.old) slot statement.now.cell value }
    {
        let cell = statement.cell() as usize;
        let former = Former {
            slot,
            value: base(self.formers[cell], self.cells[cell]),
        };
        self.formers[cell] = Some(former);
        self.cells[cell] = value;
    }

    /// Locks the statement's cell for reading.
    pub(crate) fn look(&mut self, slot: usize, statement: &Statement)
        requires slot { slot < 8 }
        requires opened { is_open (meaning_of self.old) slot ≡ true }
        ensures { meaning_of self.new ≡ looked_at same_unit (meaning_of self.old) slot statement.now.cell }
    {
        if let Some(reads) = &mut self.slots[slot] {
            reads.insert(statement);
        }
    }
}
