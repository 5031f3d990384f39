//! Whose locks exclude others.
ghost use Rattle.std.specs.Prelude.{◌≡◌, ◌<◌};
ghost use Rattle.statement.specs.Operations.{writes_cell};
ghost use Rattle.replica.specs.Meanings.{excludes, busy};
ghost use Rattle.deferred.specs.Units.{unit_of_eight};
ghost use Rattle.deferred.specs.Means.{meaning_of};

use crate::state::Deferred;
use replica::SLOTS;
use statement::Statement;

impl Deferred {
    /// Whether `other` is another slot, is open, and has a lock that excludes the one that `slot` needs for the statement.
    fn is_excluded(&self, slot: usize, statement: &Statement, other: usize) -> bool
        requires { other < 8 }
        ensures { result ≡ excludes (meaning_of self.now) slot (unit_of_eight statement.now.cell) (writes_cell statement.now.operation) other }
    {
        other != slot
            && self.slots[other]
                .as_ref()
                .is_some_and(|transaction| transaction.excludes(statement))
    }

    /// Whether some other slot has a lock that excludes the one that `slot` needs for the statement.
    pub(crate) fn is_busy(&self, slot: usize, statement: &Statement) -> bool
        ensures { result ≡ busy (meaning_of self.now) slot (unit_of_eight statement.now.cell) (writes_cell statement.now.operation) }
    {
        (0..SLOTS).any(|other| self.is_excluded(slot, statement, other))
    }
}
