//! What a statement does with its cell.

/// One of the seven operations, with its value or member as a raw number.
#[derive(Clone, Copy, PartialEq, Eq)]
pub enum Operation {
    Get,
    Set(u64),
    Add(u64),
    Take(u64),
    Join(u64),
    Leave(u64),
    Heads,
}
