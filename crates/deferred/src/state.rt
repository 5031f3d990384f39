//! The committed cells, the slots and the mark.
use crate::transaction::Transaction;
use replica::{CELLS, SLOTS};

/// A database in which a transaction's values reach the cells at seal.
#[derive(Clone, Copy)]
pub struct Deferred {
    pub(crate) cells: [u64; CELLS],
    pub(crate) slots: [Option<Transaction>; SLOTS],
    pub(crate) mark: u64,
}
