//! What a message of the log comes to.

/// The judgement of a message, from the log alone.
#[derive(Clone, Copy, PartialEq, Eq)]
pub enum Judgement {
    /// An epoch message that carries the epoch in force: the epoch rises by 1.
    Accepted,
    /// An epoch message of another epoch.
    Stale,
    /// A transaction of the epoch in force whose job was not committed before.
    Committed,
    /// A transaction of another epoch.
    Late,
    /// A transaction of the epoch in force whose job was committed at this earlier position.
    Again(u64),
}
