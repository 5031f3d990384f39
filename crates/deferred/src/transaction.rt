//! An open slot: its locks by unit, and its own values by cell, where it has written one.
use crate::units::UNITS;
use replica::CELLS;

mod keeping;

/// What a transaction has locked and written so far.
#[derive(Clone, Copy)]
pub(crate) struct Transaction {
    // kept: two flags by unit. A pair of them for each unit would say no more.
    reads: [bool; UNITS],
    writes: [bool; UNITS],
    // kept: flags beside values. As options they take 3.5 KiB more in each database, and the 74 KiB that busy_afternoon prints would change.
    written: [bool; CELLS],
    values: [u64; CELLS],
}
