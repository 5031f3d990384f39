//! The slots of a database, whatever an open slot holds: which are open, opening one, and taking in while none is.
ghost use Rattle.std.specs.Prelude.{◌≡◌, is_some, cond, None, Ok, Err, slice_index_or};
ghost use Rattle.replica.specs.Meanings.{any_below};
ghost use Rattle.replica.specs.Outcomes.{OpensWith, TakesInWith};
ghost use Rattle.replica.specs.declared.faults.Fault.TheVariants.{SlotClosed};

use crate::faults::Fault;
use crate::replaying::{CELLS, SLOTS, replay};
use statement::Statement;

/// Whether the slot is open; a slot that does not exist is not.
pub fn is_open<T>(slots: &[Option<T>; SLOTS], slot: usize) -> bool
    ensures { result ≡ is_some (slice_index_or slots.now slot None) }
{
    slots.get(slot).is_some_and(Option::is_some)
}

/// Whether any slot is open.
pub fn any_open<T>(slots: &[Option<T>; SLOTS]) -> bool
    ensures { result ≡ any_below 8 (λ s. is_some (slice_index_or slots.now s None)) }
{
    slots.iter().any(Option::is_some)
}

/// Refused where the slot is not open.
pub fn expect_open<T>(slots: &[Option<T>; SLOTS], slot: usize) -> Result<(), Fault>
    ensures { result ≡ cond (is_some (slice_index_or slots.now slot None)) (Ok tt) (Err SlotClosed) }
{
    is_open(slots, slot).then_some(()).ok_or(Fault::SlotClosed)
}

/// Opens the slot, which then holds `held`.
///
/// Refused where there is no such slot, and then where it is open already.
pub fn open<T: Copy>(slots: &mut [Option<T>; SLOTS], slot: usize, held: T) -> Result<(), Fault>
    ensures { OpensWith held result slot slots.old slots.new }
{
    if slot >= SLOTS {
        return Err(Fault::NoSlot);
    }
    if is_open(slots, slot) {
        return Err(Fault::SlotOpen);
    }
    slots[slot] = Some(held);
    Ok(())
}

/// Runs the statements of the message at `position` in order on the cells; the mark becomes one past the position.
///
/// Refused where a slot is open, and then where the position is the last of 64 bits.
pub fn take_in<T>(
    slots: &[Option<T>; SLOTS],
    cells: &mut [u64; CELLS],
    mark: &mut u64,
    statements: &[Statement],
    position: u64,
) -> Result<(), Fault>
    ensures { TakesInWith result (any_below 8 (λ s. is_some (slice_index_or slots.now s None))) statements.now position cells.old cells.new mark.old mark.new }
{
    if any_open(slots) {
        return Err(Fault::NotQuiet);
    }
    let next = position.checked_add(1).ok_or(Fault::LastPosition)?;
    *cells = replay(*cells, statements);
    *mark = next;
    Ok(())
}
