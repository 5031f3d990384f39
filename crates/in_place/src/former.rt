//! What a cell held before an open slot wrote it.
ghost use Rattle.std.specs.Prelude.{◌≡◌};
ghost use Rattle.in_place.specs.Parts.{committed, written_by, released, restored};

/// The slot that wrote a cell, and the committed value from before its first write.
#[derive(Clone, Copy)]
pub(crate) struct Former {
    pub(crate) slot: usize,
    pub(crate) value: u64,
}

/// The committed value of a cell that holds `value`.
pub(crate) fn base(former: Option<Former>, value: u64) -> u64
    ensures { result ≡ committed former value }
{
    former.map_or(value, |f| f.value)
}

/// Whether the slot wrote the cell.
pub(crate) fn wrote(former: Option<Former>, slot: usize) -> bool
    ensures { result ≡ written_by slot former }
{
    former.is_some_and(|f| f.slot == slot)
}

/// What is left of a cell's former value once the slot is closed.
pub(crate) fn release(former: Option<Former>, slot: usize) -> Option<Former>
    ensures { result ≡ released slot former }
{
    former.filter(|f| f.slot != slot)
}

/// What a cell that holds `value` holds once the slot is undone.
pub(crate) fn restore(former: Option<Former>, value: u64, slot: usize) -> u64
    ensures { result ≡ restored slot former value }
{
    base(former.filter(|f| f.slot == slot), value)
}
