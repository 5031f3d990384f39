//! A server: what it knows of itself, and its open transactions.
ghost use Rattle.std.specs.Prelude.{◌+◌, ◌≤◌};

use crate::rows::Row;
use replica::SLOTS;

pub mod advances;
pub mod looks;
pub mod messages;
pub mod questions;
pub mod switches;
pub mod tables;

/// A server without its database: it is running or not, and has an epoch, a delivered count, perhaps a bar, and a row for each slot of
/// its database.
#[derive(Clone, Copy)]
pub struct Server {
    running: bool,
    epoch: u64,
    delivered: u64,
    bar: Option<u64>,
    rows: [Option<Row>; SLOTS],
    ghost early: { delivered ≤ 4096 },
    ghost first: { 1 ≤ epoch },
    ghost young: { epoch ≤ delivered + 1 },
}
