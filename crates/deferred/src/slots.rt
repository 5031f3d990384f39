//! What an open slot sees, and closing one.
ghost use Rattle.std.specs.Prelude.{◌≡◌, ℕ, ◌<◌, slice_index};
ghost use Rattle.replica.specs.Meanings.{current};
ghost use Rattle.replica.specs.Calls.{undone};
ghost use Rattle.deferred.specs.Means.{meaning_of};

use crate::state::Deferred;
use replica::CELLS;

// kept: `slot < 8` as a clause of these two and of one in `in_place`; a type for it would be made anew in each call of the trait.
impl Deferred {
    /// What a slot sees in each cell.
    pub(crate) fn seen(&self, slot: usize) -> [u64; CELLS]
        requires { slot < 8 }
        ensures { (k : ℕ) → slice_index result k ≡ current (meaning_of self.now) slot k }
    {
        // kept: under `as_ref().map_or(..)` the goal `returns` stayed open for an open slot, since no contract is inferred for the closure.
        // With one of its own it is longer than this.
        match &self.slots[slot] {
            Some(transaction) => transaction.overlay(self.cells),
            None => self.cells,
        }
    }

    /// Closes a slot, with its locks and its own values.
    pub(crate) fn close(&mut self, slot: usize)
        requires { slot < 8 }
        ensures { meaning_of self.new ≡ undone (meaning_of self.old) slot }
    {
        self.slots[slot] = None;
    }
}
