//! What a statement does to a cell's value.
ghost use Rattle.std.specs.Prelude.{◌≡◌};
ghost use Rattle.statement.specs.Operations.{writes_cell, changed, answered};

use crate::checked::Statement;
use crate::operation::Operation;

/// The value that a statement leaves in its cell, and its answer.
#[derive(Clone, Copy, PartialEq, Eq)]
pub struct Effect {
    pub value: u64,
    pub answer: u64,
}

impl Statement {
    /// Whether the statement counts as writing, even where the cell stays as it is.
    pub fn writes(&self) -> bool
        ensures { result ≡ writes_cell self.now.operation }
    {
        match self.operation() {
            Operation::Get | Operation::Heads => false,
            Operation::Set(_)
            | Operation::Add(_)
            | Operation::Take(_)
            | Operation::Join(_)
            | Operation::Leave(_) => true,
        }
    }

    /// What the statement leaves and answers on a cell that holds `value`.
    pub fn apply(&self, value: u64) -> Effect
        ensures value { result.value ≡ changed self.now.operation value }
        ensures answer { result.answer ≡ answered self.now.operation value }
    {
        match self.operation() {
            Operation::Get => Effect {
                value,
                answer: value,
            },
            Operation::Set(v) => Effect {
                value: v,
                answer: value,
            },
            Operation::Add(v) => {
                let sum = value.wrapping_add(v);
                Effect {
                    value: sum,
                    answer: sum,
                }
            }
            Operation::Take(v) => {
                if v <= value {
                    Effect {
                        value: value - v,
                        answer: 1,
                    }
                } else {
                    Effect { value, answer: 0 }
                }
            }
            Operation::Join(m) => {
                if (value >> m) % 2 == 1 {
                    Effect { value, answer: 0 }
                } else {
                    Effect {
                        value: value | (1 << m),
                        answer: 1,
                    }
                }
            }
            Operation::Leave(m) => {
                if (value >> m) % 2 == 1 {
                    Effect {
                        value: value ^ (1 << m),
                        answer: 1,
                    }
                } else {
                    Effect { value, answer: 0 }
                }
            }
            Operation::Heads => Effect {
                value,
                answer: u64::from(value.count_ones()),
            },
        }
    }
}
