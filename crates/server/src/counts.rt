//! How many servers an ensemble has.
ghost use Rattle.std.specs.Prelude.{◌≤◌};

pub mod making;

/// A number of servers, from 1 to 8.
#[derive(Clone, Copy)]
pub struct ServerCount {
    count: u8,
    ghost few: { (1 ≤ count) × (count ≤ 8) },
}
