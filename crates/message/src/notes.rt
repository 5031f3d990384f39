//! Up to six statements, each with the result that its run answered.
ghost use Rattle.std.specs.Prelude.{◌≤◌};

use statement::Statement;

pub mod noting;

/// The most statements that one transaction runs: a post of the chat server needs no more.
pub const STATEMENTS: usize = 6;

/// The statements of a transaction in the order of their runs, with their results.
// kept: two arrays and a count, since both parts are lent as slices, and a message is copied without an allocation.
#[derive(Clone, Copy)]
pub struct Notes {
    statements: [Statement; STATEMENTS],
    results: [u64; STATEMENTS],
    count: usize,
    ghost short: { count ≤ 6 },
}
