//! Why a broadcast refuses a call. A refused call changes nothing.

/// Ordered and waiting messages together have reached the capacity.
#[derive(Clone, Copy, PartialEq, Eq, Debug)]
pub struct Full;

/// No message waits to be ordered.
#[derive(Clone, Copy, PartialEq, Eq, Debug)]
pub struct NothingWaits;

/// The position is at or past the count of ordered messages.
#[derive(Clone, Copy, PartialEq, Eq, Debug)]
pub struct NotOrdered;
