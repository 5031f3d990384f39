//! The cells that an open slot locked for reading.
ghost use Rattle.std.specs.Prelude.{◌≡◌, ℕ, true, false};
ghost use Rattle.replica.specs.Meanings.{put};
ghost use Rattle.in_place.specs.Reads.{holds};

use replica::CELLS;
use statement::Statement;

/// The read locks of an open slot.
#[derive(Clone, Copy)]
pub(crate) struct ReadSet {
    cells: [bool; CELLS],
}

impl ReadSet {
    /// No cell is locked.
    pub(crate) fn new() -> ReadSet
        ensures { (u : ℕ) → holds result u ≡ false }
    {
        ReadSet {
            cells: [false; CELLS],
        }
    }

    /// Whether the statement's cell is locked.
    pub(crate) fn contains(&self, statement: &Statement) -> bool
        ensures { result ≡ holds self.now statement.now.cell }
    {
        self.cells[statement.cell() as usize]
    }

    /// Locks the statement's cell.
    pub(crate) fn insert(&mut self, statement: &Statement)
        ensures { (u : ℕ) → holds self.new u ≡ put (holds self.old) statement.now.cell true u }
    {
        self.cells[statement.cell() as usize] = true;
    }
}
