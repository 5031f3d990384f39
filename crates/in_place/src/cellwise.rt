//! Former values of all cells.
ghost use Rattle.std.specs.Prelude.{◌≡◌, ℕ, None, slice_index, slice_index_or};
ghost use Rattle.in_place.specs.Parts.{committed, released, restored};

use crate::former::{Former, base, release, restore};
use replica::CELLS;

/// Drops the former values that the slot's writes left.
pub(crate) fn release_all(formers: &mut [Option<Former>; CELLS], slot: usize)
    ensures { (k : ℕ) → slice_index_or formers.new k None ≡ released slot (slice_index_or formers.old k None) }
{
    for former in formers.iter_mut() {
        *former = release(*former, slot);
    }
}

/// Takes back what the slot wrote.
pub(crate) fn restore_all(cells: &mut [u64; CELLS], formers: &[Option<Former>; CELLS], slot: usize)
    ensures { (k : ℕ) → slice_index cells.new k ≡ restored slot (slice_index_or formers.now k None) (slice_index cells.old k) }
{
    for (c, cell) in cells.iter_mut().enumerate() {
        *cell = restore(formers[c], *cell, slot);
    }
}

/// Takes back what every slot wrote.
pub(crate) fn base_all(cells: &mut [u64; CELLS], formers: &[Option<Former>; CELLS])
    ensures { (k : ℕ) → slice_index cells.new k ≡ committed (slice_index_or formers.now k None) (slice_index cells.old k) }
{
    for (c, cell) in cells.iter_mut().enumerate() {
        *cell = base(formers[c], *cell);
    }
}
