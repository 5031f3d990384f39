//! Statements run in order on cells, for every make.
ghost use Rattle.std.specs.Prelude.{◌≡◌, slice_index};
ghost use Rattle.replica.specs.Meanings.{all_stepped};

use statement::Statement;

/// The cells of a database, numbered from 0.
pub const CELLS: usize = 64;

/// The slots of a database, numbered from 0: a busy office keeps eight transactions open on one server.
pub const SLOTS: usize = 8;

/// The cells after the statements ran on them in order.
pub fn replay(cells: [u64; CELLS], statements: &[Statement]) -> [u64; CELLS]
    ensures { (λ c. slice_index result c) ≡ all_stepped (λ c. slice_index cells c) statements.now }
{
    let mut after = cells;
    for statement in statements {
        let c = statement.cell() as usize;
        after[c] = statement.apply(after[c]).value;
    }
    after
}
