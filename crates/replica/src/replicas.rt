//! A replica: cells, a mark and slots.
ghost use Rattle.std.specs.Prelude.{◌≡◌};
ghost use Rattle.replica.specs.Meanings.{Meaning};
ghost use Rattle.replica.specs.Calls.{cleared};
ghost use Rattle.replica.specs.Refusals.{cell_refusal};
ghost use Rattle.replica.specs.Outcomes.{TakesIn, Shown};

use crate::faults::Fault;
use statement::Statement;

/// A copy of the 64 cells that follows the log.
pub trait Replica {
    ghost meaning: { Self → Meaning };

    /// Sets the cells and the mark to 0 and closes every slot.
    fn clear(&mut self)
        ensures { meaning self.new ≡ cleared };

    /// The committed value of a cell.
    ///
    /// Refused where there is no such cell.
    fn cell(&self, cell: u64) -> Result<u64, Fault>
        ensures { Shown result (cell_refusal cell) ((meaning self.now).cells cell) };

    /// One past the position that was sealed or taken in last; 0 where none was.
    fn mark(&self) -> u64
        ensures { result ≡ (meaning self.now).mark };

    /// Runs the statements of the message at `position` in order on the committed cells; the mark becomes one past the position.
    ///
    /// Refused where a slot is open, and then where the position is the last of 64 bits.
    fn intake(&mut self, statements: &[Statement], position: u64) -> Result<(), Fault>
        ensures { TakesIn result statements.now position (meaning self.old) (meaning self.new) };
}
