//! A statement that exists: its type keeps its cell and its member below 64.
ghost use Rattle.std.specs.Prelude.{◌≡◌, ◌<◌, true};
ghost use Rattle.statement.specs.Operations.{fits_member};

use crate::operation::Operation;

pub mod making;

/// A number that names no cell, or no member.
#[derive(Clone, Copy, PartialEq, Eq, Debug)]
pub enum Missing {
    Cell(u64),
    Member(u64),
}

/// An operation on a cell.
#[derive(Clone, Copy, PartialEq, Eq)]
pub struct Statement {
    cell: u64,
    operation: Operation,
    ghost cell_fits: { cell < 64 },
    ghost member_fits: { fits_member operation ≡ true },
}
