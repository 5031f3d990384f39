//! The cells as they were written, and what is needed to take that back.
ghost use Rattle.std.specs.Prelude.{◌≡◌, ℕ, true, None, slice_index_or};
ghost use Rattle.in_place.specs.Parts.{held_by_open};

use crate::former::Former;
use crate::read_set::ReadSet;
use replica::{CELLS, SLOTS};

/// A database whose cells hold what was written last, sealed or not. Each cell is a unit of its own.
#[derive(Clone, Copy)]
pub struct InPlace {
    // What was written last.
    // kept: two arrays, since replaying takes the values alone as one array.
    pub(crate) cells: [u64; CELLS],
    // What an undo puts back, in each cell that an open slot wrote.
    pub(crate) formers: [Option<Former>; CELLS],
    // The read locks of each open slot.
    pub(crate) slots: [Option<ReadSet>; SLOTS],
    pub(crate) mark: u64,
    ghost held: { (c : ℕ) → held_by_open slots (slice_index_or formers c None) ≡ true },
}
