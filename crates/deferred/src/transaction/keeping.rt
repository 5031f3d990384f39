//! What an open slot sees, excludes and keeps.
ghost use Rattle.std.specs.Prelude.{◌≡◌, ℕ, ◌&&◌, ◌||◌, slice_index};
ghost use Rattle.statement.specs.Operations.{writes_cell};
ghost use Rattle.replica.specs.Meanings.{fresh, or_else};
ghost use Rattle.deferred.specs.Units.{unit_of_eight};
ghost use Rattle.deferred.specs.Shown.{shown, with_write, with_read};

use super::Transaction;
use crate::units::{UNITS, unit};
use replica::CELLS;
use statement::Statement;
use std::array;

impl Transaction {
    /// A slot with no lock and no value.
    pub(crate) fn new() -> Transaction
        ensures { shown result ≡ fresh }
    {
        Transaction {
            reads: [false; UNITS],
            writes: [false; UNITS],
            written: [false; CELLS],
            values: [0; CELLS],
        }
    }

    /// Its own value of the statement's cell, or the committed one where it has none.
    pub(crate) fn sees(&self, statement: &Statement, committed: u64) -> u64
        ensures { result ≡ or_else ((shown self.now).own statement.now.cell) committed }
    {
        let cell = statement.cell() as usize;
        if self.written[cell] {
            self.values[cell]
        } else {
            committed
        }
    }

    /// Whether its locks exclude the one that another slot needs for the statement.
    pub(crate) fn excludes(&self, statement: &Statement) -> bool
        ensures { let u = unit_of_eight statement.now.cell in result ≡ ((shown self.now).writes u || (writes_cell statement.now.operation && (shown self.now).reads u)) }
    {
        let unit = unit(statement);
        self.writes[unit] || (statement.writes() && self.reads[unit])
    }

    /// Locks the unit of the statement's cell for writing, and keeps a value of the cell.
    pub(crate) fn write(&mut self, statement: &Statement, value: u64)
        ensures { shown self.new ≡ with_write (shown self.old) (unit_of_eight statement.now.cell) statement.now.cell value }
    {
        self.writes[unit(statement)] = true;
        let cell = statement.cell() as usize;
        self.written[cell] = true;
        self.values[cell] = value;
    }

    /// Locks the unit of the statement's cell for reading.
    pub(crate) fn read(&mut self, statement: &Statement)
        ensures { shown self.new ≡ with_read (shown self.old) (unit_of_eight statement.now.cell) }
    {
        self.reads[unit(statement)] = true;
    }

    /// The cells, with its own value where it has one.
    pub(crate) fn overlay(&self, cells: [u64; CELLS]) -> [u64; CELLS]
        ensures { (k : ℕ) → slice_index result k ≡ or_else ((shown self.now).own k) (slice_index cells k) }
    {
        array::from_fn(|c| {
            if self.written[c] {
                self.values[c]
            } else {
                cells[c]
            }
        })
    }
}
